//! The classes, enums and methods of a resolved program.
//! Names stand in them by their numbers in the program's table of names.

use crate::{CoreExpr, CoreStmt};
use jv_tree::PlainType;
use mg_text::{List, Name, Place};

/// A type. Classes and enums stand in it by their numbers, and `Text` is Java's String.
#[derive(Clone, Copy, Debug, PartialEq, Eq)]
pub enum CoreType {
    Void,
    Int,
    Boolean,
    Text,
    /// The number of the class.
    Object(u32),
    /// The number of the enum.
    Enum(u32),
}

impl CoreType {
    ghost use Rattle.std.specs.Prelude.{◌≡◌};
    ghost use Rattle.jv_core.specs.Types.{plain_type};

    /// The type that a plain one is.
    pub fn plain(plain: PlainType) -> CoreType
        ensures { result ≡ plain_type plain }
    {
        match plain {
            PlainType::Void => CoreType::Void,
            PlainType::Int => CoreType::Int,
            PlainType::Boolean => CoreType::Boolean,
            PlainType::Text => CoreType::Text,
        }
    }
}

/// A class, and the place of its name. `typestate` is the number of its typestate, and `methods`
/// has the numbers of its methods, in the order of the text.
#[derive(Drop)]
pub struct CoreClass {
    pub place: Place,
    pub name: Name,
    pub typestate: Option<u32>,
    pub fields: List<CoreField>,
    pub methods: List<u32>,
}

/// A field. `value` is the constant that it starts with; without one it starts with 0, false or
/// null.
#[derive(Drop)]
pub struct CoreField {
    pub name: Name,
    pub ty: CoreType,
    pub value: Option<CoreExpr>,
}

/// An enum, and its constants in the order of the text.
#[derive(Drop)]
pub struct CoreEnum {
    pub name: Name,
    pub constants: List<Name>,
}

/// What a method is: `main` with its `String[]`, another static method, an instance method that
/// the typestate of its class names, or an instance method that it doesn't name.
#[derive(Clone, Copy, Debug, PartialEq, Eq)]
pub enum MethodKind {
    Main,
    Static,
    Helper,
    Protocol,
}

/// A parameter or local of a method.
#[derive(Clone, Copy)]
pub struct CoreSlot {
    pub name: Name,
    pub ty: CoreType,
}

/// A loop, and the slots that are in scope where it begins, in rising order.
#[derive(Drop)]
pub struct CoreLoop {
    pub place: Place,
    pub scope: List<u32>,
}

/// A method, with the place of its name and that of its closing brace. Its first `params` slots
/// are its parameters; the others are its locals. The `String[]` of `main` has no slot.
#[derive(Drop)]
pub struct CoreMethod {
    pub place: Place,
    pub end: Place,
    pub class: u32,
    pub name: Name,
    pub kind: MethodKind,
    pub result: CoreType,
    pub params: u32,
    pub slots: List<CoreSlot>,
    pub loops: List<CoreLoop>,
    pub body: List<CoreStmt>,
}
