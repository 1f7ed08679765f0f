//! Tests of the hart that no clause and no recording shows: that its calls succeed with memory at hand, and that the
//! ways to take a step agree.
#![tactic(auto)]

#[cfg(test)]
mod acting;
#[cfg(test)]
mod machine;
#[cfg(test)]
mod values;
#[cfg(test)]
mod ways;
