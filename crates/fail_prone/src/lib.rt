// Quorum systems whose fault sets are listed.
#![tactic(auto)]

pub mod fail_prone;
mod lists;
