// What is listed of two sheets, found out.
ghost use Rattle.std.specs.Prelude.{IfOk};
ghost use Rattle.task_sheets.specs.Opened.{task_of};
ghost use Rattle.checks.specs.Arrangements.{Arranges};
ghost use Rattle.checks.specs.Bytes.{BytesChecked};
ghost use Rattle.checks.specs.Checked.{bare};
ghost use Rattle.listings.specs.Shown.{Shows};
ghost use Rattle.listings.specs.Listings.{book_in, task_in, Lists};
ghost use Rattle.listings.specs.Pages.{shown_on, text_of};

use crate::page::{ListFault, Page};
use books::Book;
use cards::Card;
use checks::{Arrangement, PlanFault, arrange, open_both};
use sheets::keeps_length;
use task_sheets::TaskSheet;
use timetables::{Seconds, StepCount, strata, timetable, weights};

// The page of an accepted plan.
fn page_of<B: Book>(book: &B, task: &TaskSheet, plan: Arrangement) -> Page
    requires { Arranges (B.Book.model book.now) (task_of task.now) plan }
    ensures { Shows (B.Book.model book.now) (task_of task.now) (shown_on result) }
{
    let card = Card::waiting(plan);
    let mut stratum = [StepCount { count: 0 }; 256];
    let height = strata(&card, &mut stratum).unwrap();
    let mut begins = [Seconds { count: 0 }; 256];
    let end = timetable(&card, &weights(book, &plan), &mut begins).unwrap();
    Page {
        plan,
        levels: task.levels(),
        strata: height,
        end,
        stratum,
        begins,
    }
}

// Opens the book's sheet, then the task's, and checks the plan; accepted, its page is answered.
fn read_page(book: &[u8], task: &[u8]) -> Result<Page, PlanFault>
    ensures checked { BytesChecked book.now task.now (bare result) }
    ensures shown { IfOk result (λ p. Shows (book_in book.now) (task_in task.now) (shown_on p)) }
{
    let (book_sheet, task_sheet) = open_both(book, task)?;
    let mut plan = Arrangement::new();
    arrange(&book_sheet, &task_sheet, &mut plan)?;
    Ok(page_of(&book_sheet, &task_sheet, plan))
}

// The page of two sheets; neither is opened where one is too long.
pub(crate) fn read(book: &[u8], task: &[u8]) -> Result<Page, ListFault>
    ensures { Lists book.now task.now (text_of result) }
{
    keeps_length(book)?;
    keeps_length(task)?;
    Ok(read_page(book, task)?)
}
