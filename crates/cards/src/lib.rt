// Run cards: the places of a plan as they wait, are in hand and are finished, beside the board that they change.
#![tactic(auto)]

pub mod card;
pub mod fault;
pub mod fault_text;
pub mod issuing;
pub mod laws;
pub mod reply_text;
pub mod replying;
pub mod request;
pub mod run;
pub mod start;
pub mod state;

pub use card::Card;
pub use card::calls::{attempt, begin, finish, put_back};
pub use fault::RunFault;
pub use issuing::{draw_up, issue};
pub use replying::reply;
pub use request::{Reply, Request};
pub use run::Run;
pub use start::set_start;
pub use state::{Attempt, Event, State};
