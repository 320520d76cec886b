//! The first condition of fitting that roles and files are at fault with: whether roles, run by the
//! classes of a program, fit the global protocol that they are to play.
#![tactic(auto)]

ghost use Rattle.fit_judge.specs.Adder.{AdderFits};

mod code;
mod first;
mod makings;
mod names;
mod projections;
mod roles;
mod used;

pub use first::first_unfit;

/// The conditions can be met: an adder meets them all, with its protocols, its core and its roles. The
/// function carries a law.
pub fn adder_fits()
    ensures { AdderFits }
{}
