// What every refusal tells: its number on the one list of refusals, and the values that it names. The definitions are in specs/.
#![tactic(auto)]
