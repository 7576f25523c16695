// The cluster: one writer, its readers, the replicas, and the messages between them.
#![tactic(auto)]

mod clients;
pub mod cluster;
pub mod collecting;
pub mod completed_read;
pub mod delivery;
pub mod drops;
mod front_list;
pub mod journal;
pub mod limits;
pub mod making;
pub mod operations;
pub mod reader;
pub mod refusal;
mod refusals;
pub mod replies;
pub mod requests;
pub mod rows;
pub mod tables;
pub mod views;
