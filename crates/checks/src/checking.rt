// The check of a plan: its levels passed in turn, then its goal looked for.
ghost use Rattle.std.specs.Prelude.{◌≡◌, [], length, IfOk, Ok, Err, MatchResult, OnOk};
ghost use Rattle.facts.specs.Sets.{holds};
ghost use Rattle.task_sheets.specs.Opened.{task_of};
ghost use Rattle.checks.specs.Arrangements.{Arranges, OneArrangement};
ghost use Rattle.checks.specs.Checked.{Matches, Checked, EndsIn, OneAnswer, Reached, bare};
ghost use Rattle.checks.specs.Drafts.{Drafted, PlanDrafted};

use crate::arrangement::Arrangement;
use crate::draft::Draft;
use crate::fault::PlanFault;
use crate::level::pass_level;
use crate::reading::part_set;
use arrayvec::ArrayVec;
use books::Book;
use facts::FactSet;
use task_sheets::{Part, TaskSheet};

// Passes the levels of the plan in turn, from the start facts on, and answers the facts at the end.
fn pass_levels<B: Book>(
    book: &B,
    task: &TaskSheet,
    draft: &mut Draft,
) -> Result<[u64; 16], PlanFault>
    requires { (Matches (B.Book.model book.now) (task_of task.now)) × (draft.old.items ≡ []) }
    ensures { MatchResult result (λ words. Drafted (B.Book.model book.now) (task_of task.now) (length (task_of task.now).levels) words draft.new.items) (λ f. Checked (B.Book.model book.now) (task_of task.now) (Err f)) }
{
    let mut facts = part_set(task, Part::Start).words();
    let mut placed = ArrayVec::new();
    for (i, level) in task.levels_in_turn().enumerate() {
        facts = pass_level(book, facts, &level, i + 1, &mut placed, draft)?;
    }
    Ok(facts)
}

// Whether the facts at the end include the goal's; refused at the smallest that is missing.
fn reach_goal(task: &TaskSheet, end: &FactSet) -> Result<(), PlanFault>
    ensures { Reached (task_of task.now).goal (holds end.now.words) result }
{
    match part_set(task, Part::Goal).first_outside(end) {
        Some(fact) => Err(PlanFault::GoalMissing { fact }),
        None => Ok(()),
    }
}

// Judges the plan, level by level and then by its goal; on acceptance the draft holds its places, and the facts that it
// ends in are answered.
fn judge<B: Book>(book: &B, task: &TaskSheet, draft: &mut Draft) -> Result<[u64; 16], PlanFault>
    requires { draft.old.items ≡ [] }
    ensures answer { Checked (B.Book.model book.now) (task_of task.now) (bare result) }
    ensures facts { IfOk result (EndsIn (B.Book.model book.now) (task_of task.now)) }
    ensures drafted { OnOk result (PlanDrafted (B.Book.model book.now) (task_of task.now) draft.new.items) }
{
    if task.facts() != book.facts() || task.steps() != book.steps() {
        return Err(PlanFault::Mismatch);
    }
    let end = pass_levels(book, task, draft)?;
    reach_goal(task, &FactSet::of(end))?;
    Ok(end)
}

// Checks the plan. Accepted, the facts that it ends in are written; refused, the first refusal is named and nothing changes.
pub fn check<B: Book>(book: &B, task: &TaskSheet, facts: &mut FactSet) -> Result<(), PlanFault>
    ensures answer { Checked (B.Book.model book.now) (task_of task.now) result }
    ensures facts { MatchResult result (λ _. EndsIn (B.Book.model book.now) (task_of task.now) facts.new.words) (λ _. facts.new ≡ facts.old) }
{
    let mut draft = Draft::new();
    let end = judge(book, task, &mut draft)?;
    *facts = FactSet::of(end);
    Ok(())
}

// Checks the plan and, where it is accepted, writes its arrangement and answers the facts that it ends in; refused, the
// first refusal is named and nothing changes.
pub fn arrange<B: Book>(
    book: &B,
    task: &TaskSheet,
    into: &mut Arrangement,
) -> Result<[u64; 16], PlanFault>
    ensures answer { Checked (B.Book.model book.now) (task_of task.now) (bare result) }
    ensures facts { IfOk result (EndsIn (B.Book.model book.now) (task_of task.now)) }
    ensures arrangement { MatchResult result (λ _. Arranges (B.Book.model book.now) (task_of task.now) into.new) (λ _. into.new ≡ into.old) }
{
    let mut draft = Draft::new();
    let words = judge(book, task, &mut draft)?;
    *into = Arrangement::of(draft.as_slice());
    Ok(words)
}

// A plan has one arrangement: the same places in the same order, and the same precedence.
#[tactic(auto, using(crate::proofs::Arrangements::one_arrangement))]
pub fn a_plan_has_one_arrangement()
    ensures { OneArrangement }
{}

// A plan has one answer: no other one fits the definition.
#[tactic(auto, using(crate::proofs::Answers::one_answer))]
pub fn the_check_has_one_answer()
    ensures { OneAnswer }
{}
