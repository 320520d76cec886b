//! One class file, from the codes of its methods: its header, its fields and its methods. All that a part
//! needs in the pool is made before its sizes are judged.
//!
//! The code of a constructor and the descriptors of methods are made here too (`constructors`, `descriptors`).
//! Of each code, instructions get the numbers of their constants in the pool, in the order of the code
//! (`constants`); then each has its place in bytes (`sizes`, `laying`), and each jump its distance (`finals`).
//! No size is limited until the instructions are made (`exceeding`).
#![tactic(auto)]

mod classes;
mod constants;
mod constructors;
mod descriptors;
mod exceeding;
mod faults;
mod finals;
mod heads;
mod laying;
mod members;
mod names;
mod pushed;
mod sizes;
mod texts;

pub use classes::class_file;
pub use constructors::constructor_code;
pub use descriptors::method_descriptor;
pub use faults::GenFault;
pub use members::{Making, code};
