ghost use Rattle.std.specs.Prelude.{◌≡◌};
ghost use Rattle.books.specs.Book.{Model, Lawful};

// A step book, known by its answers. Facts and steps are numbers from 0 up; a question about a number out of range
// is answered no or 0, and no question changes the book. A kind of book shows what it means and that it is lawful.
pub trait Book {
    ghost model: { Self → Model };

    ghost lawful: { (b : Self) → Lawful (model b) };

    // How many facts there are, at most 1,024.
    fn facts(&self) -> usize
        ensures { result ≡ (model self.now).facts };

    // How many steps there are, at most 512.
    fn steps(&self) -> usize
        ensures { result ≡ (model self.now).steps };

    // Whether step `a` needs fact `p`.
    fn needs(&self, a: usize, p: usize) -> bool
        ensures { result ≡ (model self.now).needs a p };

    // Whether step `a` adds fact `p`.
    fn adds(&self, a: usize, p: usize) -> bool
        ensures { result ≡ (model self.now).adds a p };

    // Whether step `a` deletes fact `p`.
    fn deletes(&self, a: usize, p: usize) -> bool
        ensures { result ≡ (model self.now).deletes a p };

    // The seconds that step `a` takes, at most 1,000,000.
    fn seconds(&self, a: usize) -> u32
        ensures { result ≡ (model self.now).seconds a };
}
