// Kinds of setting, and how each is written as bytes.
#![tactic(auto)]

pub mod lens_correction;
pub mod setting;
pub mod shelf_mark;
#[cfg(test)]
mod tests;
