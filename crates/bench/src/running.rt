// A crew's script carried out, each reply recorded.
ghost use Rattle.std.specs.Prelude.{◌≡◌, ◌/◌, ◌≤◌, length};
ghost use Rattle.cards.specs.Cards.{setting_of, moment_of};
ghost use Rattle.cards.specs.Issues.{Numbered};
ghost use Rattle.bench.specs.Running.{request_in, Records, BytesRun};

use crate::records::put_record;
use boards::Board;
use books::Book;
use cards::{Attempt, Card, Event, Request, RunFault, issue, reply};
use checks::open_both;
use sheets::{TooShort, Writer};

// The bytes of a request.
const REQUEST: usize = 3;

// The bytes of a record.
const RECORD: usize = 144;

// The request that three bytes say: what is asked (0 begin, 1 finish, 2 put back, else a look), and the place in two.
fn request_of(bytes: [u8; 3]) -> Request
    ensures { result ≡ request_in bytes 0 }
{
    let [asked, high, low] = bytes;
    let place = usize::from(u16::from_be_bytes([high, low]));
    let event = match asked {
        0 => Event::Begin,
        1 => Event::Finish,
        2 => Event::PutBack,
        _ => return Request::Look(place),
    };
    Request::Call(Attempt { event, place })
}

// Carries the requests of the script out in turn, and writes a record of each; the answer is the length of the records.
fn carry<B: Book, D: Board>(
    book: &B,
    board: &mut D,
    card: &mut Card,
    script: &[u8],
    out: &mut [u8],
) -> usize
    requires room { length script.now / 3 ≤ length out.old / 144 }
    requires numbered { Numbered card.old }
    ensures { Records (setting_of (B.Book.model book.now) (D.Board.limit board.old) card.old) (moment_of card.old (D.Board.set board.old)) script.now out.old result out.new }
{
    let mut writer = Writer::new(out);
    let (requests, _) = script.as_chunks::<REQUEST>();
    for request in requests {
        let answer = reply(book, board, card, request_of(*request));
        put_record(&mut writer, answer, board);
    }
    writer.place()
}

// Opens both sheets, issues the task on the board and carries the script out. The answer is the length of the records;
// where the buffer is too short for them, the length that is needed is named.
pub(crate) fn run_bytes<D: Board>(
    book: &[u8],
    task: &[u8],
    script: &[u8],
    board: &mut D,
    out: &mut [u8],
) -> Result<usize, RunFault>
    ensures { BytesRun book.now task.now (D.Board.limit board.old) script.now out.old result out.new }
{
    let (book_sheet, task_sheet) = open_both(book, task)?;
    let mut card = Card::new();
    issue(&book_sheet, board, &mut card, &task_sheet)?;
    let count = script.len() / REQUEST;
    if out.len() / RECORD < count {
        return Err(RunFault::TooShort(TooShort {
            needed: count.saturating_mul(RECORD),
        }));
    }
    Ok(carry(&book_sheet, board, &mut card, script, out))
}
