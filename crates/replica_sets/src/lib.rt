// Sets of replicas.
#![tactic(auto)]

pub mod replica_set;
