//! The clients of the protocols of files: each is made from its protocol, and accepted beside the
//! file that it plays; or the first refusal.
#![tactic(auto)]

mod files;

pub use files::{ClientFile, clients};
