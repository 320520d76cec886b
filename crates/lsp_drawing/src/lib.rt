//! The diagram of a document's typestate, in the language of Mermaid.
#![tactic(auto)]

mod arrows;
mod drawings;
mod laws;

pub use arrows::diagram;
pub use drawings::drawing;
pub use laws::rows_hold;
