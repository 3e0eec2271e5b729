ghost use Rattle.std.specs.Prelude.{◌≡◌};
ghost use Rattle.cards.specs.States.{finished, held};

// How far a place has come.
#[derive(Clone, Copy, PartialEq, Eq, Debug)]
pub enum State {
    Waiting,
    InHand,
    Finished,
}

// What may be asked of a place.
#[derive(Clone, Copy, PartialEq, Eq, Debug)]
pub enum Event {
    Begin,
    Finish,
    PutBack,
}

// One call: what is asked of which place.
#[derive(Clone, Copy, PartialEq, Eq, Debug)]
pub struct Attempt {
    pub event: Event,
    pub place: usize,
}

impl State {
    // Whether the place is finished.
    pub fn is_finished(self) -> bool
        ensures { result ≡ finished self }
    {
        self == State::Finished
    }

    // Whether the place is in hand.
    pub fn is_in_hand(self) -> bool
        ensures { result ≡ held self }
    {
        self == State::InHand
    }
}
