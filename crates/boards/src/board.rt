ghost use Rattle.std.specs.Prelude.{◌≡◌, ℕ, not, ◌&&◌, ◌||◌, ◌==◌, nat_lt};
ghost use Rattle.books.specs.Book.{Facts};
ghost use Rattle.boards.specs.Board.{LawfulBoard};

// A set of facts below a span that never changes. A kind of board shows what it holds and that it is lawful.
pub trait Board {
    ghost limit: { Self → ℕ };

    ghost set: { Self → Facts };

    ghost lawful: { (b : Self) → LawfulBoard (limit b) (set b) };

    // The facts below the span can be put, at most 1,024.
    fn span(&self) -> usize
        ensures { result ≡ limit self.now };

    // Whether fact `p` is held; no at or above the span.
    fn held(&self, p: usize) -> bool
        ensures { result ≡ set self.now p };

    // Puts fact `p`, held or not; no at or above the span.
    fn put(&mut self, p: usize) -> bool
        ensures answer { result ≡ nat_lt p (limit self.old) }
        ensures span { limit self.new ≡ limit self.old }
        ensures after { (q : ℕ) → set self.new q ≡ (set self.old q || (result && q == p)) };

    // Clears fact `p`, held or not; no at or above the span.
    fn clear(&mut self, p: usize) -> bool
        ensures answer { result ≡ nat_lt p (limit self.old) }
        ensures span { limit self.new ≡ limit self.old }
        ensures after { (q : ℕ) → set self.new q ≡ (set self.old q && not (q == p)) };
}
