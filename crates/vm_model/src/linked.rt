//! The parts of a linked program: each reference is a number of what it names.
//! Classes are numbered in their order in the program, fields and methods in their order in the class.

ghost use Rattle.std.specs.Prelude.{◌≡◌, option_map};
ghost use Rattle.std.specs.Coded.{codes};
ghost use Rattle.vm_model.specs.contracts.linked_type.LinkedType as types;
ghost use Rattle.vm_model.specs.Types.{signature_of, type_of};
ghost use Rattle.vm_model.specs.Kept.{kept_type, kept_params, kept_result};

use crate::linked_type::LinkedType;
use mg_text::{List, Text};
use std::rc::Rc;

/// A member of the built-in classes.
#[derive(Clone, Copy, Debug, PartialEq, Eq)]
pub enum Built {
    /// The constructor of `java/lang/Object`.
    Init,
    /// `String.concat(String)`.
    Concat,
    /// `String.equals(Object)`.
    Equals,
    /// `String.valueOf(int)`.
    ValueOfInt,
    /// `String.valueOf(boolean)`.
    ValueOfTruth,
    /// The field `System.out`.
    Out,
    /// `PrintStream.println(String)`.
    Println,
    /// `Session.send(String, String)`.
    Send,
    /// `Session.sendInt(String, String, int)`.
    SendInt,
    /// `Session.sendBoolean(String, String, boolean)`.
    SendTruth,
    /// `Session.sendString(String, String, String)`.
    SendText,
    /// `Session.look(String)`.
    Look,
    /// `Session.take(String, String)`.
    Take,
    /// `Session.takeInt(String, String)`.
    TakeInt,
    /// `Session.takeBoolean(String, String)`.
    TakeTruth,
    /// `Session.takeString(String, String)`.
    TakeText,
    /// `Session.refuse(String, String)`.
    Refuse,
}

/// What an instruction works with, its constants looked up.
#[derive(Debug)]
pub enum LinkedArgs {
    None,
    Int(i32),
    /// A text, which every value that is made of it shares.
    Text(Rc<Text>),
    /// A local of the frame.
    Local(u8),
    /// A local, and what is added to it.
    Add(u8, i8),
    /// The number of an instruction in the code.
    Jump(u32),
    /// Numbers of instructions: that for `low`, for `low + 1` and so on, and that for every other int.
    Table {
        default: u32,
        low: i32,
        targets: List<u32>,
    },
    Class(u32),
    Field {
        class: u32,
        field: u32,
    },
    Method {
        class: u32,
        method: u32,
    },
    Built(Built),
}

// Each part of a program is let go in one call, wherever a function ends.
impl Drop for LinkedArgs {
    fn drop(self) {
        match self {
            LinkedArgs::Text(_) => {}
            LinkedArgs::Table {
                default: _,
                low: _,
                targets: _,
            } => {}
            LinkedArgs::None
            | LinkedArgs::Int(_)
            | LinkedArgs::Local(_)
            | LinkedArgs::Add(_, _)
            | LinkedArgs::Jump(_)
            | LinkedArgs::Class(_)
            | LinkedArgs::Field { class: _, field: _ }
            | LinkedArgs::Method {
                class: _,
                method: _,
            }
            | LinkedArgs::Built(_) => {}
        }
    }
}

/// An instruction: its opcode (JVMS chapter 6), and what it works with.
pub struct LinkedInstr {
    pub op: u8,
    pub args: LinkedArgs,
}

impl Drop for LinkedInstr {
    fn drop(self) {
        let LinkedInstr { op: _, args: _ } = self;
    }
}

/// A method: its name and descriptor, the types that the descriptor names, its bounds, and its code.
pub struct LinkedMethod {
    pub name: Text,
    pub descriptor: Text,
    pub params: List<LinkedType>,
    /// What the method answers, where it answers something.
    pub result: Option<LinkedType>,
    pub is_static: bool,
    pub max_stack: u16,
    pub max_locals: u16,
    pub code: List<LinkedInstr>,
    ghost takes: { params.items ≡ kept_params (signature_of descriptor) } by { Prim.hlevel (codes, types.the_row.coded) },
    ghost gives: { result ≡ kept_result (signature_of descriptor) } by { Prim.hlevel (codes, types.the_row.coded) },
}

impl Drop for LinkedMethod {
    fn drop(self) {
        let LinkedMethod {
            name: _,
            descriptor: _,
            params: _,
            result: _,
            is_static: _,
            max_stack: _,
            max_locals: _,
            code: _,
        } = self;
    }
}

/// A field that each object of a class has.
pub struct LinkedField {
    pub name: Text,
    pub descriptor: Text,
    /// The type that the descriptor names, where it names one.
    pub field_type: Option<LinkedType>,
    ghost holds: { field_type ≡ option_map kept_type (type_of descriptor) } by { Prim.hlevel (codes, types.the_row.coded) },
}

impl Drop for LinkedField {
    fn drop(self) {
        let LinkedField {
            name: _,
            descriptor: _,
            field_type: _,
        } = self;
    }
}

/// A class: its name, its fields that aren't static, and its methods.
pub struct LinkedClass {
    pub name: Text,
    pub fields: List<LinkedField>,
    pub methods: List<LinkedMethod>,
}

impl Drop for LinkedClass {
    fn drop(self) {
        let LinkedClass {
            name: _,
            fields: _,
            methods: _,
        } = self;
    }
}
