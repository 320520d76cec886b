//! A call of a protocol method, as it stands in the text.

use jv_core::Var;
use mg_text::Place;

/// A call: the place at which its variable is named, the number of the method in whose body it stands, the variable,
/// and the number of the method that is called.
#[derive(Clone, Copy)]
pub struct Site {
    pub place: Place,
    pub within: u32,
    pub variable: Var,
    pub method: u32,
}
