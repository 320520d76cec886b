//! The parts of a class file of any version (JVMS chapter 4), as far as they are read.
//! Numbers of constants count from 1, and 0 stands for none.

use mg_text::{Bytes, List};

/// A constant (JVMS 4.4). Numbers are those of other constants.
#[derive(Drop)]
pub enum Const {
    /// The second number of a long or a double before it.
    Unused,
    /// The bytes of a text, in modified UTF-8.
    Text(Bytes),
    Integer(i32),
    /// The bits of a float.
    Float(u32),
    /// The high and the low half of a long.
    Long(u32, u32),
    /// The high and the low half of the bits of a double.
    Double(u32, u32),
    /// A class, by its name.
    Class(u16),
    /// A text that code may push.
    String(u16),
    /// A field: its class, and its name and type.
    Field(u16, u16),
    /// A method of a class: its class, and its name and type.
    Method(u16, u16),
    /// A method of an interface: its interface, and its name and type.
    InterfaceMethod(u16, u16),
    /// A name and a descriptor.
    NameAndType(u16, u16),
    /// How a field or a method is used, 1 to 9, and which.
    MethodHandle(u8, u16),
    /// The descriptor of a method.
    MethodType(u16),
    /// A value that is computed: the number of its bootstrap method, and its name and type.
    Dynamic(u16, u16),
    /// A call that is linked when it is first made: the number of its bootstrap method, and its name and type.
    DynamicCall(u16, u16),
    Module(u16),
    Package(u16),
}

/// A row of the table of exception handlers (JVMS 4.7.3): the places that it covers, from `start` up to `end`;
/// the place of the handler; and the class of what it catches, or 0 where it catches everything.
#[derive(Clone, Copy)]
pub struct Handler {
    pub start: u16,
    pub end: u16,
    pub handler: u16,
    pub catches: u16,
}

/// From a place on, code stands on this line of its source (JVMS 4.7.12).
#[derive(Clone, Copy)]
pub struct Line {
    pub start: u16,
    pub line: u16,
}

/// In so many bytes from a place on, a local holds the variable of this name and descriptor (JVMS 4.7.13).
#[derive(Clone, Copy)]
pub struct Variable {
    pub start: u16,
    pub length: u16,
    pub name: u16,
    pub descriptor: u16,
    pub local: u16,
}

/// The code of a method (JVMS 4.7.3).
#[derive(Drop)]
pub struct Code {
    /// The most words of operands that stand at one time.
    pub max_stack: u16,
    /// How many words of locals there are.
    pub max_locals: u16,
    pub bytes: Bytes,
    pub handlers: List<Handler>,
    pub lines: List<Line>,
    pub variables: List<Variable>,
}

/// A field or a method (JVMS 4.5, 4.6): its access flags, its name and descriptor, and a method's code, where it has one.
#[derive(Drop)]
pub struct Member {
    pub access: u16,
    pub name: u16,
    pub descriptor: u16,
    pub code: Option<Code>,
}

/// The value of an element of an annotation (JVMS 4.7.16.1), by the numbers of constants.
#[derive(Clone, Copy)]
pub enum ElementValue {
    /// A number, a character or a truth value.
    Constant(u16),
    Text(u16),
    /// A constant of an enum: the descriptor of the enum, and its name.
    EnumConstant(u16, u16),
    /// A class, by its descriptor.
    Class(u16),
    /// A further annotation, of which nothing is kept.
    Annotation,
    /// Values in a row, of which nothing is kept.
    Array,
}

/// An element of an annotation: its name, and its value.
#[derive(Clone, Copy)]
pub struct Element {
    pub name: u16,
    pub value: ElementValue,
}

/// An annotation (JVMS 4.7.16): the descriptor of its type, and its elements in their order.
#[derive(Drop)]
pub struct Annotation {
    pub type_descriptor: u16,
    pub elements: List<Element>,
}

/// A class file (JVMS 4.1).
pub struct Class {
    /// The constants, of which the first has the number 1.
    pub constants: List<Const>,
    pub access: u16,
    pub this_class: u16,
    /// Its superclass, or 0, as of `java.lang.Object` and of a module.
    pub super_class: u16,
    pub interfaces: List<u16>,
    pub fields: List<Member>,
    pub methods: List<Member>,
    /// The name of the file that it was compiled from (JVMS 4.7.10), or 0 where none is told.
    pub source_file: u16,
    /// Its annotations, whether they are there at run time (JVMS 4.7.16) or not (4.7.17), in their order.
    pub annotations: List<Annotation>,
}

// One call lets go of it, wherever a function ends.
impl Drop for Class {
    fn drop(self) {
        let Class {
            constants: _,
            access: _,
            this_class: _,
            super_class: _,
            interfaces: _,
            fields: _,
            methods: _,
            source_file: _,
            annotations: _,
        } = self;
    }
}
