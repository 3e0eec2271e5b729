// One line of a script.
ghost use Rattle.scripts.specs.Lines.{NamesPlace, SaysRequest, SaysCall, event_words};
ghost use Rattle.std.specs.Prelude.{◌≡◌};

use crate::numeral::number;
use cards::{Attempt, Event, Request};

// The place that the line names behind these words.
fn place_after(words: &str, line: &str) -> Option<usize>
    ensures { NamesPlace words.now line.now result }
{
    number(line.strip_prefix(words)?)
}

// The words that say this event.
fn words_of(event: Event) -> &'static str
    ensures { result.now ≡ event_words event }
{
    match event {
        Event::Begin => "begin ",
        Event::Finish => "finish ",
        Event::PutBack => "put back ",
    }
}

// The call of this event that the line says; none where it says none.
fn call(event: Event, line: &str) -> Option<Request>
    ensures { SaysCall event line.now result }
{
    let place = place_after(words_of(event), line)?;
    Some(Request::Call(Attempt { event, place }))
}

// The request that the line says; none where it says none.
pub fn request(line: &str) -> Option<Request>
    ensures { SaysRequest line.now result }
{
    call(Event::Begin, line)
        .or_else(|| call(Event::Finish, line))
        .or_else(|| call(Event::PutBack, line))
        .or_else(|| place_after("look ", line).map(Request::Look))
}
