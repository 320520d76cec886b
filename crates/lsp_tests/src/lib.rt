//! Tests of what the language server answers in the files of a client: definitions and hovers, what is offered, diagrams.
//! They stand apart from the crates that they try, each of which would be proved twice with them.
#![tactic(auto)]

#[cfg(test)]
mod defining;
#[cfg(test)]
mod diagrams;
#[cfg(test)]
mod offering;
