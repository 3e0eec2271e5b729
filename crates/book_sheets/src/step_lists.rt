// The lists of a step, and where its row says how long they are.
ghost use Rattle.std.specs.Prelude.{◌≡◌, ◌+◌, ◌≤◌, length, slice_index};

use sheets::SortedNumbers;

// How many facts a step needs, adds and deletes.
#[derive(Clone, Copy)]
pub(crate) struct Counts {
    pub(crate) needs: u8,
    pub(crate) adds: u8,
    pub(crate) deletes: u8,
}

impl Counts {
    // The counts in the row that begins at `row`.
    pub(crate) fn of_row(bytes: &[u8], row: usize) -> Counts
        requires { row + 11 ≤ length bytes.now }
        ensures needs { result.needs ≡ slice_index bytes.now (row + 8) }
        ensures adds { result.adds ≡ slice_index bytes.now (row + 9) }
        ensures deletes { result.deletes ≡ slice_index bytes.now (row + 10) }
    {
        Counts {
            needs: bytes[row + 8],
            adds: bytes[row + 9],
            deletes: bytes[row + 10],
        }
    }
}

// The facts that a step needs, adds and deletes.
#[derive(Clone, Copy)]
pub(crate) struct StepLists<'a> {
    pub(crate) needs: SortedNumbers<'a>,
    pub(crate) adds: SortedNumbers<'a>,
    pub(crate) deletes: SortedNumbers<'a>,
}
