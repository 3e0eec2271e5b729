ghost use Rattle.cards.specs.ReplyText.{text_of_reply, text_of_state};
ghost use Rattle.std.specs.Prelude.{Some};

use crate::request::Reply;
use crate::state::State;
use std::fmt;

// How far a place has come, in words.
impl fmt::Display for State {
    ghost output = { λ s. Some (text_of_state s) };

    fn fmt<W: fmt::Write>(&self, f: &mut fmt::Formatter<W>) -> fmt::Result {
        match *self {
            State::Waiting => write!(f, "waiting"),
            State::InHand => write!(f, "in hand"),
            State::Finished => write!(f, "finished"),
        }
    }
}

// A reply in words: granted, how the place stands, or the refusal.
impl fmt::Display for Reply {
    ghost output = { λ r. Some (text_of_reply r) };

    fn fmt<W: fmt::Write>(&self, f: &mut fmt::Formatter<W>) -> fmt::Result {
        match *self {
            Reply::Granted => write!(f, "granted"),
            Reply::Seen { step, level, state } => write!(f, "step {step} level {level} {state}"),
            Reply::Refused(fault) => write!(f, "{fault}"),
        }
    }
}
