//! What a document declares, as symbols with their ranges: protocols, typestates with their states and
//! methods, classes with their fields and methods, and enums.
#![tactic(auto)]

mod classes;
mod documents;
mod laws;
mod named;
mod placed;
mod things;
mod tokens;

pub use documents::symbols;
pub use laws::rows_hold;
pub use named::Language;
pub use things::Declared;
pub use tokens::Token;
