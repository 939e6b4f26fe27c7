// Trials: examples of what the engine answers, run against its public calls.
#![tactic(auto)]

#[cfg(test)]
mod building_trials;
#[cfg(test)]
mod grading_trials;
#[cfg(test)]
mod keeping;
#[cfg(test)]
mod making;
#[cfg(test)]
mod reading_trials;
