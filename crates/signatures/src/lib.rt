// Signature schemes: each keeps a book of what it signed.
#![tactic(auto)]

mod book;
pub mod entry;
pub mod inline_signer;
pub mod ledger;
pub mod signatures;
#[cfg(test)]
mod tests;
