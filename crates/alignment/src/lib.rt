// Alignment runs: what follows a completed read.
#![tactic(auto)]

pub mod alignment_refusal;
pub mod alignment_run;
mod bands;
pub mod closed;
#[cfg(test)]
mod tests;
