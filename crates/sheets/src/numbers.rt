ghost use Rattle.std.specs.Prelude.{◌≡◌, ◌+◌, ◌*◌, ◌≤◌, length, map};
ghost use Rattle.sheets.specs.Lists.{numbers_at};
ghost use Rattle.sheets.specs.Numbers.{number_in, numbers_in, numbers_of, Picked};

// Numbers of a list, read where they lie: two bytes to each, the highest first.
#[derive(Clone, Copy)]
pub struct Numbers<'a> {
    bytes: &'a [u8],
}

// The number that two bytes say.
pub(crate) fn number(pair: &[u8; 2]) -> usize
    ensures { result ≡ number_in pair.now }
{
    u16::from_be_bytes(*pair) as usize
}

impl<'a> Numbers<'a> {
    // The numbers in these bytes.
    pub fn new(bytes: &'a [u8]) -> Numbers<'a>
        ensures { numbers_of result ≡ numbers_in bytes.now }
    {
        Numbers { bytes }
    }

    // The `n` numbers of the list at `at`.
    pub(crate) fn of_list(bytes: &'a [u8], at: usize, n: usize) -> Numbers<'a>
        requires { at + 2 * n ≤ length bytes.now }
        ensures { numbers_of result ≡ numbers_at bytes.now at n }
    {
        Numbers::new(&bytes[at..at + 2 * n])
    }

    // The bytes two by two.
    pub(crate) fn pairs(&self) -> &'a [[u8; 2]]
        ensures { map number_in result.now ≡ numbers_of self.now }
    {
        self.bytes.as_chunks().0
    }

    // How many numbers there are.
    pub fn len(&self) -> usize
        ensures { result ≡ length (numbers_of self.now) }
    {
        self.pairs().len()
    }

    // Number `j`, counted from 0, if there is one.
    pub fn get(&self, j: usize) -> Option<usize>
        ensures { Picked (numbers_of self.now) j result }
    {
        self.pairs().get(j).map(number)
    }
}
