ghost use Rattle.std.specs.Prelude.{◌≡◌, None, MatchResult};
ghost use Rattle.sheets.specs.declared.fault.Sheet.TheVariants.{Task as on_task};
ghost use Rattle.sheets.specs.Verdicts.{verdict_on};
ghost use Rattle.task_sheets.specs.Layout.{task_verdict};
ghost use Rattle.task_sheets.specs.Content.{no_task};
ghost use Rattle.task_sheets.specs.Opened.{task_of, Reads, SaysOne, SaysNone, OneSheetEach};

use super::TaskSheet;
use crate::checks::check_sheet;
use sheets::{Sheet, SheetFault};

impl<'a> TaskSheet<'a> {
    // A sheet that is not opened yet: no facts, steps or levels.
    pub fn new() -> TaskSheet<'a>
        ensures { (result.opened ≡ None) × (task_of result ≡ no_task) }
    {
        TaskSheet { opened: None }
    }

    // Reads these bytes from now on, if they are a task sheet; else says what is wrong, and stays as it was.
    pub fn open(&mut self, bytes: &'a [u8]) -> Result<(), SheetFault>
        ensures verdict { result ≡ verdict_on on_task (task_verdict bytes.now) }
        ensures after { MatchResult result (λ _. Reads self.new bytes.now) (λ _. self.new ≡ self.old) }
        ensures law { MatchResult result (λ _. SaysOne bytes.now) (λ _. SaysNone bytes.now) }
        ensures one { OneSheetEach }
    {
        check_sheet(bytes).map_err(|refused| refused.on(Sheet::Task))?;
        self.opened = Some(bytes);
        Ok(())
    }
}
