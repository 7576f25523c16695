// Trials of any quorum system, and of each of ours.
#![tactic(auto)]

#[cfg(test)]
mod tests;
pub mod trials;
