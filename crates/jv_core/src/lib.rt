//! The resolved program: classes, enums, methods, fields, slots and loops by their numbers.
//! `Core` keeps by its type that the program is well typed and numbered in the order of its text.
#![tactic(auto)]

mod program;
mod resolved;
mod texts;
mod tree;

pub use jv_tree::{Op as CoreOp, SessionCall};
pub use program::{
    CoreClass, CoreEnum, CoreField, CoreLoop, CoreMethod, CoreSlot, CoreType, MethodKind,
};
pub use resolved::Core;
pub use texts::name_text;
pub use tree::{CoreExpr, CoreExprKind, CoreGroup, CoreStmt, CoreStmtKind, CoreVar, Var};
