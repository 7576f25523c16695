// Trials of the cluster, through its public calls alone.
#![tactic(auto)]

mod snapshot;
#[cfg(test)]
mod tests;
mod trial;
