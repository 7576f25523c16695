// What holds of every run of a cluster.
#![tactic(auto)]

pub mod answer;
pub mod call;
pub mod calling;
pub mod simulation;
pub mod theorem;
