//! Links class files: each reference becomes the number of what it names (JVMS chapter 5).
//! All is judged in one order, and of what is wrong the first of the lowest number is answered.
#![tactic(auto)]

mod classes;
mod code;
mod declared;
mod descriptor;
mod fault;
mod fit;
mod kept;
mod loading;
mod member;
mod members;
mod numbers;
mod outline;
mod pool;
mod reference;
mod same;
mod uses;

pub use fault::LoadFault;
pub use loading::load;
