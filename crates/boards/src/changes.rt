// What is done to a board of any kind: a step, a change by two sets, a new set of facts.
ghost use Rattle.std.specs.Prelude.{◌≡◌, ℕ, false, not, ◌&&◌, ◌||◌, nat_lt};
ghost use Rattle.books.specs.Book.{after};
ghost use Rattle.facts.specs.Sets.{holds};

use crate::board::Board;
use books::{Book, gather};
use facts::FactSet;

// Clears every fact up to the span.
fn clear_all<D: Board>(board: &mut D)
    ensures span { D.Board.limit board.new ≡ D.Board.limit board.old }
    ensures holds { (q : ℕ) → D.Board.set board.new q ≡ false }
{
    for p in 0..board.span() {
        board.clear(p);
    }
}

// Clears the facts of the set that are below the span: they ascend, so the first past it ends the loop. This and the next
// stay two loops of one call: one loop over a closure that changes the board would have to say once more what the call does.
fn clear_each<D: Board>(board: &mut D, facts: &FactSet)
    ensures span { D.Board.limit board.new ≡ D.Board.limit board.old }
    ensures holds { (q : ℕ) → D.Board.set board.new q ≡ (D.Board.set board.old q && not (holds facts.now.words q)) }
{
    for p in facts.iter() {
        if !board.clear(p) {
            break;
        }
    }
}

// Puts the facts of the set that are below the span.
fn put_each<D: Board>(board: &mut D, facts: &FactSet)
    ensures span { D.Board.limit board.new ≡ D.Board.limit board.old }
    ensures holds { (q : ℕ) → D.Board.set board.new q ≡ (D.Board.set board.old q || (holds facts.now.words q && nat_lt q (D.Board.limit board.old))) }
{
    for p in facts.iter() {
        if !board.put(p) {
            break;
        }
    }
}

// Clears every fact of `deletes`, then puts every fact of `adds` that is below the span.
pub fn replace<D: Board>(board: &mut D, deletes: &FactSet, adds: &FactSet)
    ensures span { D.Board.limit board.new ≡ D.Board.limit board.old }
    ensures holds { (q : ℕ) → D.Board.set board.new q ≡ ((D.Board.set board.old q && not (holds deletes.now.words q)) || (holds adds.now.words q && nat_lt q (D.Board.limit board.old))) }
{
    clear_each(board, deletes);
    put_each(board, adds);
}

// Does step `a` on the board: clears what it deletes, then puts what it adds.
pub fn do_step<B: Book, D: Board>(book: &B, board: &mut D, a: usize)
    ensures span { D.Board.limit board.new ≡ D.Board.limit board.old }
    ensures holds { (q : ℕ) → D.Board.set board.new q ≡ (after (B.Book.model book.now) (D.Board.set board.old) a q && nat_lt q (D.Board.limit board.old)) }
{
    let sets = gather(book, a);
    replace(board, &sets.deletes, &sets.adds);
}

// The board then holds the given facts that are below its span, and no others: it clears all, then puts these.
pub fn set_to<D: Board>(board: &mut D, facts: &FactSet)
    ensures span { D.Board.limit board.new ≡ D.Board.limit board.old }
    ensures holds { (q : ℕ) → D.Board.set board.new q ≡ (holds facts.now.words q && nat_lt q (D.Board.limit board.old)) }
{
    clear_all(board);
    put_each(board, facts);
}
