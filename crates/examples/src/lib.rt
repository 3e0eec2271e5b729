// The worked examples, run: sheets of the rack, plans accepted and refused, cards worked off and handed back, timetables.
#![tactic(auto)]

#[cfg(test)]
mod checked;
pub mod given;
#[cfg(test)]
mod handed;
#[cfg(test)]
mod ran;
#[cfg(test)]
mod timed;
#[cfg(test)]
mod written;
