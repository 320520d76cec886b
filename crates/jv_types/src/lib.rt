//! The type conditions of Java sources: the declarations of a program in tables, and the first fault.
//! Names are looked up in hashed tables; no tree is copied.
#![tactic(auto)]

mod arguments;
mod blame;
mod build;
mod callee;
mod calls;
mod completes;
mod declarations;
mod demands;
mod ends;
mod entry;
mod exits;
mod exprs;
mod fault;
mod fields;
mod heads;
mod judged;
mod jumps;
mod labels;
mod locals;
mod lookup;
mod members;
mod mentions;
mod merged;
mod methods;
mod name_table;
mod naming;
mod operands;
mod params;
mod plain;
mod program;
mod protocols;
mod receivers;
mod repeats;
mod scope;
mod signature;
mod simple;
mod stmts;
mod switches;
mod value_type;
mod values;
mod variable;

pub use declarations::table;
pub use entry::{ClassEntry, EnumEntry, NamedTypestate};
pub use fault::TypeFault;
pub use methods::type_check;
pub use name_table::Table;
pub use program::judge;
pub use protocols::Protocol;
