// What the parties send one another, and what a replica and a client do with a message.
#![tactic(auto)]

pub mod client;
pub mod encoded;
pub mod message;
pub mod replica;
pub mod version;
