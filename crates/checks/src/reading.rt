// The lists of a task, read where they lie.
ghost use Rattle.std.specs.Prelude.{◌≡◌, ℕ, ◌&&◌, nat_lt};
ghost use Rattle.facts.specs.Sets.{holds};
ghost use Rattle.books.specs.Listed.{listed};
ghost use Rattle.task_sheets.specs.Parts.{numbers_of, list_of};
ghost use Rattle.task_sheets.specs.Opened.{task_of};

use facts::FactSet;
use task_sheets::{Numbers, Part, TaskSheet};

// The set of the numbers in a list that are below 1,024. The list is read number by number where it lies in the lent sheet.
fn set_of(numbers: &Numbers) -> FactSet
    ensures { (q : ℕ) → holds result.words q ≡ (nat_lt q 1024 && listed (numbers_of numbers.now) q) }
{
    let mut set = FactSet::empty();
    for j in 0..numbers.len() {
        if let Some(p) = numbers.get(j) {
            set.insert(p);
        }
    }
    set
}

// The set of the numbers of a part; empty where the task has no such part.
pub fn part_set(task: &TaskSheet, which: Part) -> FactSet
    ensures { (q : ℕ) → holds result.words q ≡ listed (list_of (task_of task.now) which) q }
{
    match task.item(which) {
        Some(item) => set_of(&item.numbers()),
        None => FactSet::empty(),
    }
}
