// Quorum systems.
#![tactic(auto)]

pub mod quorum_system;
pub mod refusal;
pub mod threshold;
