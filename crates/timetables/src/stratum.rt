// The strata of a card.
ghost use Rattle.cards.specs.Cards.{size_of, precedes_of};
ghost use Rattle.timetables.specs.Measures.{step_scale};
ghost use Rattle.timetables.specs.Strata.{ones, Stratified};
ghost use Rattle.timetables.specs.Timetable.{Timetabled};

use crate::count::StepCount;
use crate::timetabling::timetable;
use cards::Card;
use sheets::TooShort;

// Writes the timetable with weight 1 for every place.
fn one_step_each(card: &Card, begins: &mut [StepCount]) -> Result<StepCount, TooShort>
    ensures { Timetabled step_scale (size_of card.now) (precedes_of card.now) ones begins.old begins.new result }
{
    let weights = [StepCount { count: 1 }; 256];
    timetable(card, &weights, begins)
}

// Writes the stratum of each place of the card, its begin where every place has weight 1, and answers the number of strata.
#[tactic(auto, using(crate::proofs::Layers::stratified, crate::proofs::Upward::upward))]
pub fn strata(card: &Card, begins: &mut [StepCount]) -> Result<StepCount, TooShort>
    ensures { Stratified (size_of card.now) (precedes_of card.now) begins.old begins.new result }
{
    one_step_each(card, begins)
}
