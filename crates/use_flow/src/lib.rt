//! What flows through a method: which elements each variable may have, and which demands fail.
//! The rules are definitions; the code follows each context by them, with tables of sets.
#![tactic(auto)]

mod arguments;
mod calling;
mod calls;
mod classed;
mod course;
mod entered;
mod evaluated;
mod exits;
mod expressions;
mod fields;
mod followed;
mod follows;
mod heads;
mod held;
mod jumps;
mod labels;
mod leaves;
mod listed;
mod named;
mod null_tests;
mod offers;
mod out;
mod read;
mod rising;
mod runs;
mod scene;
mod simple;
mod started;
mod statements;
mod switches;
mod targets;
mod types;
mod variables;

pub use arguments::method_at;
pub use calling::led;
pub use entered::contexts;
pub use fields::{FieldTable, key_of, number, sum};
pub use followed::flow;
pub use follows::Follows;
pub use held::Tables;
pub use out::{Flow, Out, Sight};
pub use read::{reads, reads_in};
pub use runs::Runs;
pub use scene::{class_at, class_in, typestate_of};
pub use use_rules::{Context, Demand, DemandKind, Element, TableKey};
