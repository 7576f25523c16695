// The laws of settings and of quorum systems, as code that is generic over them.
#![tactic(auto)]

pub mod quorum_laws;
pub mod setting_laws;
