//! A session of the language server with a client: what each message comes to, once documents are judged and questions
//! answered. Here the machine of messages meets the programs of folders; files are handed in.
#![tactic(auto)]

mod asking;
mod judging;
mod laws;
mod session;
mod showing;

pub use asking::asked_about;
pub use laws::{nothing_stays, one_response_each};
pub use session::Session;
