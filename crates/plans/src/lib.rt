// The theorems about plans: each function has no result and asks for the proof of the theorem that its contract names.
#![tactic(auto)]

ghost use Rattle.plans.specs.Laws.{Freedom, Reaching, Uniqueness, Turning, Picking, Refusing, Recognition, Singling, Acyclicity, Ascent, Laying, Arranging, Arrangeable, Likeness, Independence, Commutation, Needs, Apart, Progress, Feeding, Ending, Stillness, Restaging};
ghost use Rattle.plans.specs.Recasting.{Stratifying, OneRecast, Recasting};
ghost use Rattle.plans.specs.Tiny.{PremisesMet, FurtherPremisesMet};

// A step authorizes every other step of a level exactly where none of them is before it.
pub fn free_steps_have_none_before()
    ensures { Freedom }
{}

// A level is authorized exactly where it has a picked order.
pub fn authorized_levels_have_a_picked_order()
    ensures { Reaching }
{}

// A level has no second picked order.
pub fn picked_orders_are_unique()
    ensures { Uniqueness }
{}

// In the picked order every earlier step authorizes every later one.
pub fn picked_orders_are_in_turn()
    ensures { Turning }
{}

// Of the steps of an authorized level that wait, one authorizes every other.
pub fn some_waiting_step_is_free()
    ensures { Picking }
{}

// Where no step left authorizes every other one left, the level is not authorized.
pub fn stuck_levels_are_not_authorized()
    ensures { Refusing }
{}

// A plan is recognized exactly where each level passes from the facts that those before it leave.
pub fn recognition_goes_level_by_level()
    ensures { Recognition }
{}

// Every authorized order of each level, done singly, leaves the final facts of the plan.
#[tactic(auto, using(crate::proofs::Singles::singling))]
pub fn authorized_orders_end_alike()
    ensures { Singling }
{}

// A level of distinct steps is authorized exactly where precedence inside it has no cycle.
#[tactic(auto, using(crate::proofs::Cycles::acyclicity))]
pub fn acyclic_levels_are_authorized()
    ensures { Acyclicity }
{}

// In an arranged plan the levels rise with the places, and a place precedes only higher places.
#[tactic(auto, using(crate::proofs::Arranging::ascent))]
pub fn places_precede_only_higher_ones()
    ensures { Ascent }
{}

// In an arranged plan the levels are the places by level.
#[tactic(auto, using(crate::proofs::Arranging::laying))]
pub fn levels_are_their_places()
    ensures { Laying }
{}

// A plan of authorized levels can be arranged.
#[tactic(auto, using(crate::proofs::Arranging::arranging))]
pub fn authorized_plans_can_be_arranged()
    ensures { Arranging }
{}

// A plan can be arranged exactly where its levels are authorized.
#[tactic(auto, using(crate::proofs::Arranging::arrangeable))]
pub fn only_authorized_plans_can_be_arranged()
    ensures { Arrangeable }
{}

// A plan is arranged in one way only.
#[tactic(auto, using(crate::proofs::Arranging::likeness))]
pub fn plans_are_arranged_in_one_way()
    ensures { Likeness }
{}

// Two different places of which neither precedes the other do not disturb each other.
#[tactic(auto, using(crate::proofs::Runs::independence))]
pub fn independent_places_do_not_disturb()
    ensures { Independence }
{}

// A place that is not done comes last among the places done, whatever its number.
#[tactic(auto, using(crate::proofs::Runs::commuting))]
pub fn an_undone_place_may_come_last()
    ensures { Commutation }
{}

// A place all of whose predecessors are done finds what its step needs.
#[tactic(auto, using(crate::proofs::Runs::needing))]
pub fn ready_places_find_their_needs()
    ensures { Needs }
{}

// Two places that are ready at once do not disturb each other.
#[tactic(auto, using(crate::proofs::Runs::apart))]
pub fn ready_places_do_not_disturb()
    ensures { Apart }
{}

// While a place is not done, one that is not done is ready.
pub fn some_undone_place_is_ready()
    ensures { Progress }
{}

// A recognized plan meets each step's needs where its level starts.
#[tactic(auto, using(crate::proofs::Layers::feeding))]
pub fn recognized_levels_are_fed()
    ensures { Feeding }
{}

// All places, done singly in order, leave the final facts of the plan.
#[tactic(auto, using(crate::proofs::Layers::ending))]
pub fn all_places_end_as_recognized()
    ensures { Ending }
{}

// Two different places of one stratum do not disturb each other.
pub fn places_of_a_stratum_do_not_disturb()
    ensures { Stillness }
{}

// The strata as levels are a recognized plan with the same final facts.
pub fn strata_are_recognized()
    ensures { Restaging }
{}

// A plan has strata exactly where its levels are authorized.
#[tactic(auto, using(crate::proofs::Stratifying::stratifying))]
pub fn authorized_plans_have_strata()
    ensures { Stratifying }
{}

// A plan has one list of strata.
pub fn plans_have_one_list_of_strata()
    ensures { OneRecast }
{}

// The strata of an accepted plan are accepted with the same final facts, and they are their own strata.
pub fn recast_plans_are_accepted_and_at_rest()
    ensures { Recasting }
{}

// What the theorems ask for can be met.
#[tactic(auto, using(crate::proofs::Tiny::met))]
pub fn premises_can_be_met()
    ensures { PremisesMet }
{}

// What the theorems ask for of orders, runs and strata can be met, and a level can have a cycle.
#[tactic(auto, using(crate::proofs::Tiny::further_met))]
pub fn further_premises_can_be_met()
    ensures { FurtherPremisesMet }
{}
