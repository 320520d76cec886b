//! The language server over a stream: frames of a client in, frames of the server out, up to `exit`.
//! Whatever stands outside is handed in: a reader, a sink, and the files of folders.
#![tactic(auto)]

mod ending;
mod folders;
mod hearing;
mod laws;
mod passing;
mod serving;
mod speaking;
mod turning;

pub use ending::Ending;
pub use folders::Folders;
pub use hearing::BODY_LIMIT;
pub use laws::one_response_each;
pub use serving::serve;
