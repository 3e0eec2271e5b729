// The recast of the task that two sheets say.
ghost use Rattle.bench.specs.Opening.{BytesRecast};

use cards::RunFault;
use checks::open_both;
use recasts::recast;

// Opens both sheets, and writes the sheet of the recast task at the front of the buffer; the answer is its length.
pub(crate) fn recast_bytes(book: &[u8], task: &[u8], out: &mut [u8]) -> Result<usize, RunFault>
    ensures { BytesRecast book.now task.now out.old result out.new }
{
    let (book_sheet, task_sheet) = open_both(book, task)?;
    recast(&book_sheet, &task_sheet, out)
}
