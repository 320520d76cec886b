//! Messages of a client, read from the JSON that frames hold.
#![tactic(auto)]

mod calls;
mod fields;
mod incoming;
mod laws;
mod methods;
mod notices;
mod reading;

pub use incoming::read;
pub use laws::rows_hold;
