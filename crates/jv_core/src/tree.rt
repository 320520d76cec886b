//! The statements and expressions of a resolved program.
//! Slots, fields, methods, classes, enums and loops stand in them by their numbers.

use jv_tree::{Op, SessionCall};
use mg_text::{List, Place, Text};

/// A variable: a slot of the method, or a field of the object that the method runs on.
#[derive(Clone, Copy, Debug, PartialEq, Eq)]
pub enum Var {
    Slot(u32),
    Field(u32),
}

/// A variable that is assigned or called on, and its place.
#[derive(Clone, Copy, Debug)]
pub struct CoreVar {
    pub place: Place,
    pub var: Var,
}

/// A statement, with the place of the statement that it comes from.
#[derive(Drop)]
#[cycle(stmt)]
pub struct CoreStmt {
    pub place: Place,
    pub kind: CoreStmtKind,
}

/// What a statement is. The place of a block and of a `switch` is that of the closing brace.
#[derive(Drop)]
#[cycle(stmt)]
pub enum CoreStmtKind {
    Block(List<CoreStmt>, Place),
    Empty,
    /// The declaration of a local: its slot, and its first value.
    Local(u32, CoreExpr),
    /// The target, and its new value.
    Assign(CoreVar, CoreExpr),
    If(CoreExpr, Box<CoreStmt>, Option<Box<CoreStmt>>),
    /// The number of the loop first.
    While(u32, CoreExpr, Box<CoreStmt>),
    /// The number of the loop first.
    Do(u32, Box<CoreStmt>, CoreExpr),
    Switch(CoreExpr, List<CoreGroup>, Place),
    /// The number of the loop that is left, or none where the `switch` around it is left.
    Break(Option<u32>),
    /// The number of the loop that goes on.
    Continue(u32),
    Return(Option<CoreExpr>),
    /// `System.out.println(..);`
    Print(CoreExpr),
    /// A call or `new`, whose value is dropped.
    Eval(CoreExpr),
}

/// A group of a `switch`: its labels, where a number is the position of an enum's constant and
/// none is `default`, its statements, and the place of the token after it.
#[derive(Drop)]
#[cycle(stmt)]
pub struct CoreGroup {
    pub labels: List<Option<u32>>,
    pub body: List<CoreStmt>,
    pub end: Place,
}

/// An expression, with the place of the expression that it comes from.
#[derive(Debug, Drop)]
#[cycle(expr)]
pub struct CoreExpr {
    pub place: Place,
    pub kind: CoreExprKind,
}

/// What an expression is.
#[derive(Debug, Drop)]
#[cycle(expr)]
pub enum CoreExprKind {
    Int(i32),
    Truth(bool),
    Text(Text),
    Null,
    Var(Var),
    /// The constant at this position of the enum of this number.
    Constant {
        of: u32,
        position: u32,
    },
    Neg(Box<CoreExpr>),
    Not(Box<CoreExpr>),
    Binary(Op, Box<CoreExpr>, Box<CoreExpr>),
    /// A call of a method that the typestate of the receiver's class names.
    Protocol {
        receiver: CoreVar,
        method: u32,
        args: List<CoreExpr>,
    },
    /// A call of another method on the own object.
    Helper {
        method: u32,
        args: List<CoreExpr>,
    },
    Static {
        method: u32,
        args: List<CoreExpr>,
    },
    /// `equals` of a String, and its argument.
    Equals(Box<CoreExpr>, Box<CoreExpr>),
    /// `concat` of a String, and its argument.
    Concat(Box<CoreExpr>, Box<CoreExpr>),
    Session {
        call: SessionCall,
        args: List<CoreExpr>,
    },
    /// The number of the class.
    New(u32),
}
