// Worked examples: shown from the definitions, and run.
#![tactic(auto)]

pub mod examples;
#[cfg(test)]
mod tests;
