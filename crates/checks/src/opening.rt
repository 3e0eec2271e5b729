// The check of a plan from the bytes of its two sheets. These stay two slices: programs in other languages lend them so.
ghost use Rattle.std.specs.Prelude.{◌≡◌, IfOk, MatchResult};
ghost use Rattle.checks.specs.Checked.{bare};
ghost use Rattle.checks.specs.Bytes.{Opens, Says, BytesChecked, BytesEndIn};

use crate::checking::check;
use crate::fault::PlanFault;
use book_sheets::BookSheet;
use facts::FactSet;
use task_sheets::TaskSheet;

// Opens the book's sheet, then the task's.
pub fn open_both<'a, 'b>(
    book: &'a [u8],
    task: &'b [u8],
) -> Result<(BookSheet<'a>, TaskSheet<'b>), PlanFault>
    ensures opens { Opens book.now task.now (bare result) }
    ensures says { IfOk result (λ sheets. Says book.now task.now sheets.0 sheets.1) }
{
    let mut book_sheet = BookSheet::new();
    book_sheet.open(book)?;
    let mut task_sheet = TaskSheet::new();
    task_sheet.open(task)?;
    Ok((book_sheet, task_sheet))
}

// Opens both sheets and checks the plan. Accepted, the facts that it ends in are written; refused, the first refusal is
// named and nothing changes.
pub fn check_bytes(book: &[u8], task: &[u8], facts: &mut FactSet) -> Result<(), PlanFault>
    ensures answer { BytesChecked book.now task.now result }
    ensures facts { MatchResult result (λ _. BytesEndIn book.now task.now facts.new.words) (λ _. facts.new ≡ facts.old) }
{
    let (book_sheet, task_sheet) = open_both(book, task)?;
    check(&book_sheet, &task_sheet, facts)
}
