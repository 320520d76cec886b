//! Runs of a command: its files are one accepted program, whose class files are read back, linked
//! and run by several roles, each from the `main` of a class, or the first refusal is told.
#![tactic(auto)]

mod going;
mod laws;
mod loading;
mod mains;
mod ran;
mod running;
mod sent;

pub use going::{Gone, go};
pub use laws::{
    courses_are_runs, each_order_has_a_course, loaded_classes_are_typable, protocols_agree,
    roles_are_meant, roles_fit, roles_keep, roles_play, runs_are_meant, written_classes_link,
};
pub use mains::first_without;
pub use ran::Ran;
pub use running::{no_main, run_roles};
pub use vm_world::{RoleMain, RoleRan, Stand};
