// One level of a plan, passed from the facts before it.
ghost use Rattle.std.specs.Prelude.{◌≡◌, ℕ, ◌+◌, ◌<◌, ◌≤◌, not, ◌&&◌, ◌||◌, List, length, Decides, MatchOption, MatchResult, slice_index};
ghost use Rattle.std.specs.List.{AllByRecursion};
ghost use Rattle.facts.specs.Sets.{holds};
ghost use Rattle.books.specs.Book.{Model};
ghost use Rattle.plans.specs.Steps.{Met, passed};
ghost use Rattle.plans.specs.Plans.{Ascending, Authorized};
ghost use Rattle.plans.specs.Order.{Before, Picked};
ghost use Rattle.task_sheets.specs.Parts.{numbers_of};
ghost use Rattle.checks.specs.Drafts.{steps_of, levels_of, Told};
ghost use Rattle.checks.specs.Levels.{RowAt, Rowed, ReadyAt, Grown, LevelRefused, LevelPassed};

use crate::arrangement::Place;
use crate::draft::{Draft, PlacedStep};
use crate::fault::PlanFault;
use arrayvec::ArrayVec;
use books::{Book, gather};
use facts::{FactSet, PlaceSet};
use task_sheets::Numbers;

// A level with its needs met: its steps as they stand in the task, each with its facts.
#[derive(Drop)]
struct Level<'a> {
    number: usize,
    steps: &'a [PlacedStep],
    ghost few: { length steps.now ≤ 256 },
    ghost rising: { (i j : ℕ) → i < j → j < length steps.now → slice_index (steps_of steps.now) i < slice_index (steps_of steps.now) j },
    ghost numbered: { (i : ℕ) → i < length steps.now → slice_index (levels_of steps.now) i ≡ number },
}

// Whether position `i` is left and none that is left stands in its row.
fn is_ready(left: &PlaceSet, rows: &[PlaceSet; 256], i: usize) -> bool
    requires { i < 256 }
    ensures { Decides result (ReadyAt left.now rows.now i) }
{
    left.contains(i) && !rows[i].intersects(left)
}

// The first position below `count` that is ready.
fn first_ready(left: &PlaceSet, rows: &[PlaceSet; 256], count: usize) -> Option<usize>
    requires { count ≤ 256 }
    ensures { MatchOption result ((i : ℕ) → i < count → ReadyAt left.now rows.now i → ⊥) (λ i. (i < count) × ReadyAt left.now rows.now i × ((j : ℕ) → j < i → ReadyAt left.now rows.now j → ⊥)) }
{
    (0..count).find(|i| is_ready(left, rows, *i))
}

// `facts` without those of `deletes`, then with those of `adds`.
fn settle(facts: &FactSet, deletes: &FactSet, adds: &FactSet) -> FactSet
    ensures { (q : ℕ) → holds result.words q ≡ ((holds facts.now.words q && not (holds deletes.now.words q)) || holds adds.now.words q) }
{
    facts.minus(deletes).union(adds)
}

impl<'a> Level<'a> {
    // The level of these steps, put into `placed`; refused at the first one that has a need missing in `facts`. As many as
    // are placed, so many numbers of the list are read.
    fn gathered<B: Book>(
        book: &B,
        facts: &FactSet,
        steps: &Numbers,
        number: usize,
        placed: &'a mut ArrayVec<PlacedStep, 256>,
    ) -> Result<Level<'a>, PlanFault>
        requires { (Ascending (numbers_of steps.now)) × (length (numbers_of steps.now) ≤ 256) }
        ensures { MatchResult result (λ level. (steps_of level.steps.now ≡ numbers_of steps.now) × (level.number ≡ number) × AllByRecursion (Met (B.Book.model book.now) (holds facts.now.words)) (numbers_of steps.now) × Told (B.Book.model book.now) level.steps.now) (LevelRefused (B.Book.model book.now) (holds facts.now.words) (numbers_of steps.now) number) }
    {
        placed.clear();
        while let Some(step) = steps.get(placed.len()) {
            let gathered = gather(book, step);
            if let Some(fact) = gathered.needs.first_outside(facts) {
                return Err(PlanFault::NeedMissing {
                    level: number,
                    step,
                    fact,
                });
            }
            placed.push(PlacedStep {
                place: Place {
                    step,
                    level: number,
                },
                facts: gathered,
            });
        }
        Ok(Level {
            number,
            steps: placed.as_slice(),
        })
    }

    // Whether the step at `j` comes before the step at `i`: it is another one, which the step at `i` does not authorize.
    fn comes_before(&self, j: usize, i: usize) -> bool
        requires { (j < length self.now.steps.now) × (i < length self.now.steps.now) }
        ensures { (m : Model) → Told m self.now.steps.now → Decides result (Before m (slice_index (steps_of self.now.steps.now) j) (slice_index (steps_of self.now.steps.now) i)) }
    {
        let steps = self.steps;
        steps[j].place.step != steps[i].place.step && !steps[i].authorizes(&steps[j])
    }

    // The positions of the steps that come before the step at `i`.
    fn row_of(&self, i: usize) -> PlaceSet
        requires { i < length self.now.steps.now }
        ensures { (m : Model) → Told m self.now.steps.now → RowAt m (steps_of self.now.steps.now) i result }
    {
        PlaceSet::from_fn(self.steps.len(), |j| self.comes_before(j, i))
    }

    // Fills in the rows of all steps, each at its step's position. Of fixed length, since callers have no allocator; the loop
    // goes by number, which is asked for and written to.
    fn fill_rows(&self, rows: &mut [PlaceSet; 256])
        ensures { (m : Model) → Told m self.now.steps.now → Rowed m (steps_of self.now.steps.now) rows.new }
    {
        for i in 0..self.steps.len() {
            rows[i] = self.row_of(i);
        }
    }

    // Puts the steps into the draft, at each turn the smallest one left that authorizes every other one left; refused
    // where a turn has none.
    fn order(&self, draft: &mut Draft) -> Result<(), PlanFault>
        requires { length draft.old.items + length self.now.steps.now ≤ 256 }
        ensures { (m : Model) → Told m self.now.steps.now → MatchResult result (λ _. (bs : List ℕ) × Picked m (steps_of self.now.steps.now) bs × Grown m bs self.now.number draft.old.items draft.new.items) (λ f. (f ≡ PlanFault.NoOrder self.now.number) × (Authorized m (steps_of self.now.steps.now) → ⊥)) }
    {
        let mut rows = [PlaceSet::empty(); 256];
        self.fill_rows(&mut rows);
        let steps = self.steps;
        let mut left = PlaceSet::from_fn(steps.len(), |_| true);
        for _turn in steps {
            let i = first_ready(&left, &rows, steps.len()).ok_or(PlanFault::NoOrder {
                level: self.number,
            })?;
            left.remove(i);
            draft.push(steps[i]);
        }
        Ok(())
    }

    // The facts after the level: all that its steps delete is removed, then all that they add is put.
    fn facts_after(&self, facts: &FactSet) -> FactSet
        ensures { (m : Model) → Told m self.now.steps.now → (q : ℕ) → holds result.words q ≡ passed m (holds facts.now.words) (steps_of self.now.steps.now) q }
    {
        let mut deletes = FactSet::empty();
        let mut adds = FactSet::empty();
        for step in self.steps {
            deletes = deletes.union(&step.facts.deletes);
            adds = adds.union(&step.facts.adds);
        }
        settle(facts, &deletes, &adds)
    }
}

// Passes one level: its needs are looked at, its picked order is put into the draft, and the facts after it are answered.
// Refused at the smallest step that has a need missing, or where the level is not authorized. Its steps are put into `placed`,
// whatever that held, so that one vector serves all levels.
pub(crate) fn pass_level<B: Book>(
    book: &B,
    facts: [u64; 16],
    steps: &Numbers,
    number: usize,
    placed: &mut ArrayVec<PlacedStep, 256>,
    draft: &mut Draft,
) -> Result<[u64; 16], PlanFault>
    requires { (Ascending (numbers_of steps.now)) × (length draft.old.items + length (numbers_of steps.now) ≤ 256) }
    ensures { MatchResult result (λ after. LevelPassed (B.Book.model book.now) (holds facts) (numbers_of steps.now) number after draft.old.items draft.new.items) (LevelRefused (B.Book.model book.now) (holds facts) (numbers_of steps.now) number) }
{
    let start = FactSet::of(facts);
    let level = Level::gathered(book, &start, steps, number, placed)?;
    level.order(draft)?;
    Ok(level.facts_after(&start).words())
}
