// More worked examples, run: recasts, whole runs, listings.
#![tactic(auto)]

#[cfg(test)]
mod listed;
#[cfg(test)]
mod recasted;
#[cfg(test)]
mod whole;
