//! The trees of Java files.
//! Packages, imports, visibility and `final` are not kept; parentheses show in the trees alone.
//! A file, and each part of it down to a method, names its own parts in its `drop`, so that it is let go in one call.

use mg_text::{List, Place, Text};
use ts_tree::TypeName;

/// A file: its declarations, in the order of the text.
pub struct File {
    pub decls: List<Decl>,
}

impl Drop for File {
    fn drop(self) {
        let File { decls: _ } = self;
    }
}

/// A declaration of a file.
pub enum Decl {
    Class(Class),
    Enum(Enum),
}

impl Drop for Decl {
    fn drop(self) {
        match self {
            Decl::Class(_) => {}
            Decl::Enum(_) => {}
        }
    }
}

/// An enum with its constants, and the place of its name.
pub struct Enum {
    pub place: Place,
    pub name: Text,
    pub constants: List<Text>,
}

impl Drop for Enum {
    fn drop(self) {
        let Enum {
            place: _,
            name: _,
            constants: _,
        } = self;
    }
}

/// A class, and the place of its name. `typestate` is the text of its annotation.
pub struct Class {
    pub place: Place,
    pub name: Text,
    pub typestate: Option<Text>,
    pub fields: List<Field>,
    pub methods: List<MethodDecl>,
}

impl Drop for Class {
    fn drop(self) {
        let Class {
            place: _,
            name: _,
            typestate: _,
            fields: _,
            methods: _,
        } = self;
    }
}

/// A field, and the place of its name.
pub struct Field {
    pub place: Place,
    pub ty: TypeName,
    pub name: Text,
    pub value: Option<Expr>,
}

impl Drop for Field {
    fn drop(self) {
        let Field {
            place: _,
            ty: _,
            name: _,
            value: _,
        } = self;
    }
}

/// A method, with the place of its name and that of its closing brace. `takes_args` says that
/// its one parameter is the `String[]` of `main`, which is not among `params`.
pub struct MethodDecl {
    pub place: Place,
    pub end: Place,
    pub is_static: bool,
    pub result: TypeName,
    pub name: Text,
    pub params: List<Param>,
    pub takes_args: bool,
    pub body: List<Stmt>,
}

impl Drop for MethodDecl {
    fn drop(self) {
        let MethodDecl {
            place: _,
            end: _,
            is_static: _,
            result: _,
            name: _,
            params: _,
            takes_args: _,
            body: _,
        } = self;
    }
}

/// A parameter, and the place of its name.
pub struct Param {
    pub place: Place,
    pub ty: TypeName,
    pub name: Text,
}

impl Drop for Param {
    fn drop(self) {
        let Param {
            place: _,
            ty: _,
            name: _,
        } = self;
    }
}

/// A statement. A declaration has the place of its name, another one that of its first token.
#[derive(Drop)]
#[cycle(stmt)]
pub struct Stmt {
    pub place: Place,
    pub kind: StmtKind,
}

/// What a statement is. The place of a block and of a `switch` is that of the closing brace.
#[derive(Drop)]
#[cycle(stmt)]
pub enum StmtKind {
    Block(List<Stmt>, Place),
    Empty,
    /// The declaration of a local.
    Local(TypeName, Text, Expr),
    /// The target, and its new value.
    Assign(Expr, Expr),
    If(Expr, Box<Stmt>, Option<Box<Stmt>>),
    /// The label first.
    While(Option<Text>, Expr, Box<Stmt>),
    /// The label first.
    Do(Option<Text>, Box<Stmt>, Expr),
    Switch(Expr, List<Group>, Place),
    Break(Option<Text>),
    Continue(Option<Text>),
    Return(Option<Expr>),
    /// `System.out.println(..);`
    Print(Expr),
    /// A call or `new`.
    Eval(Expr),
}

/// A group of a `switch`: its labels, where none stands for `default`, its statements, and the
/// place of the token after it.
#[derive(Drop)]
#[cycle(stmt)]
pub struct Group {
    pub labels: List<Option<Text>>,
    pub body: List<Stmt>,
    pub end: Place,
}

/// An expression, with the place of its first token that is no `(`.
#[derive(Drop)]
#[cycle(expr)]
pub struct Expr {
    pub place: Place,
    pub kind: ExprKind,
}

/// What an expression is.
#[derive(Drop)]
#[cycle(expr)]
pub enum ExprKind {
    Int(i32),
    Truth(bool),
    Text(Text),
    Null,
    This,
    Name(Text),
    /// `e.name`
    Member(Box<Expr>, Text),
    Neg(Box<Expr>),
    Not(Box<Expr>),
    Binary(Op, Box<Expr>, Box<Expr>),
    /// `name(..)`
    Call(Text, List<Expr>),
    /// `e.name(..)`
    MethodCall(Box<Expr>, Text, List<Expr>),
    New(Text),
}

/// A binary operator.
#[derive(Clone, Copy, Debug, PartialEq, Eq)]
pub enum Op {
    Or,
    And,
    Eq,
    Ne,
    Lt,
    Le,
    Gt,
    Ge,
    Add,
    Sub,
    Mul,
    Div,
    Rem,
}
