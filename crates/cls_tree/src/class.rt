//! The parts of a class file of version 49.0 (JVMS chapter 4).
//! Numbers of constants count from 1.

use crate::Instr;
use mg_text::{Bytes, List, Text};

/// A constant of the pool (JVMS 4.4). Numbers are those of other constants, which count from 1.
#[derive(Drop)]
pub enum Const {
    Utf8(Text),
    /// A number that code may push.
    Integer(i32),
    /// A class, by its name.
    Class(u16),
    /// A text that code may push.
    Text(u16),
    /// A field: its class, and its name and type.
    Field(u16, u16),
    /// A method: its class, and its name and type.
    Method(u16, u16),
    /// A name and a descriptor.
    NameAndType(u16, u16),
}

/// The code of a method, with the number of its attribute's name (JVMS 4.7.3). It has no handlers.
#[derive(Debug, Drop)]
#[cycle(attribute)]
pub struct Code {
    pub name: u16,
    /// The most operands that stand at one time.
    pub max_stack: u16,
    /// How many locals there are.
    pub max_locals: u16,
    pub instrs: List<Instr>,
    /// None of these is itself code.
    pub attributes: List<Attr>,
}

/// An attribute (JVMS 4.7).
#[derive(Debug, Drop)]
#[cycle(attribute)]
pub enum Attr {
    /// The code of a method.
    Code(Code),
    /// Another attribute, by the number of its name. Its bytes are kept unread.
    Other { name: u16, bytes: Bytes },
}

/// A field or a method (JVMS 4.5, 4.6): its access flags, the numbers of its name and its descriptor, and its attributes.
#[derive(Debug, Drop)]
pub struct Member {
    pub access: u16,
    pub name: u16,
    pub descriptor: u16,
    pub attributes: List<Attr>,
}

/// A class file of version 49.0 (JVMS 4.1), with no interfaces.
pub struct Class {
    pub pool: List<Const>,
    pub access: u16,
    pub this_class: u16,
    pub super_class: u16,
    pub fields: List<Member>,
    pub methods: List<Member>,
    pub attributes: List<Attr>,
}

// One call lets go of it, wherever a function ends.
impl Drop for Class {
    fn drop(self) {
        let Class {
            pool: _,
            access: _,
            this_class: _,
            super_class: _,
            fields: _,
            methods: _,
            attributes: _,
        } = self;
    }
}
