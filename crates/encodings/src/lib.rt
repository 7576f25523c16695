// The bytes of a setting, and tables of rows.
#![tactic(auto)]

pub mod encoding;
pub mod rows;
