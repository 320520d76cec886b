//! All that is wrong with the files of a command at once.
#![tactic(auto)]

ghost use Rattle.mg_faults.specs.Demands.{FaultsAreLines, OneFaults};
ghost use Rattle.mg_faults.specs.Faults.{FirstIsAmong, NoneWhereAccepted, OneList};

mod judged;
mod readings;
mod said;

pub use judged::{Finding, find};

/// The first refusal of files that aren't accepted is among all of them, but for the place of Syntax; and files that are
/// accepted have none. The function carries laws.
pub fn first_is_among()
    ensures among { FirstIsAmong }
    ensures none { NoneWhereAccepted }
{}

/// Of demands that fail each line is told once, in order, and each demand is told; and there is one such list. The
/// function carries laws.
pub fn each_is_told()
    ensures lines { FaultsAreLines }
    ensures one { OneFaults }
{}

/// Files have one list of what is wrong with them, but for the places of Syntax. The function carries a law.
pub fn one_list()
    ensures { OneList }
{}
