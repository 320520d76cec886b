//! Java sources as trees and as tokens, and what the trees mean.
//! Definitions of the grammar stand in `specs/`, so that reader and printer speak of one thing.
#![tactic(auto)]

mod built_in;
mod token;
mod tree;

pub use built_in::{PlainMethod, PlainType, SessionCall, TextCall};
pub use token::{Sign, Token, TokenKind};
pub use tree::{
    Class, Decl, Enum, Expr, ExprKind, Field, File, Group, MethodDecl, Op, Param, Stmt, StmtKind,
};
