// Quorum systems of groups of replicas.
#![tactic(auto)]

pub mod nested;
