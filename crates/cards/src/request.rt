use crate::fault::RunFault;
use crate::state::{Attempt, State};

// What a crew may ask: a call at a place, or a look at one.
#[derive(Clone, Copy, PartialEq, Eq, Debug)]
pub enum Request {
    Call(Attempt),
    Look(usize),
}

// What a crew is told: that its call is granted, how the place stands, or why not.
// No Result of two good answers: a reply is printed as a line of its own, which only a type of this crate can be.
#[derive(Clone, Copy, PartialEq, Eq, Debug)]
pub enum Reply {
    Granted,
    Seen {
        step: usize,
        level: usize,
        state: State,
    },
    Refused(RunFault),
}
