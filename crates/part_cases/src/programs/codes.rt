//! The code of the last method of a core, over a pool of its own, and the constants of that pool.

use crate::machine::instrs::tell_instrs;
use cases::Answer;
use cls_tree::{Code, Const};
use gen_code::{Pool, gen_method};
use jv_core::Core;
use std::alloc::Global;

/// Tells the code of the last method, or what is too large in it; and a line for each constant of the
/// pool.
pub(crate) fn tell_last(alloc: Global, answer: &mut Answer, core: &Core) {
    let mut pool = Pool::new(alloc);
    tell_generated(alloc, answer, core, &mut pool);
    tell_pool(answer, &pool);
}

// The code of the last method over a pool, or what is too large in it.
fn tell_generated(alloc: Global, answer: &mut Answer, core: &Core, pool: &mut Pool) {
    let count = core.methods().len();
    if count == 0 {
        return answer.add("no method");
    }
    let Ok(last) = u32::try_from(count - 1) else {
        return answer.add("too many methods");
    };
    match gen_method(alloc, core, last, pool) {
        Ok(code) => tell_code(answer, &code),
        Err(fault) => answer.fault(&fault),
    }
}

// The number of the name of a code, the most operands, and how many locals there are; and a line for
// each instruction.
fn tell_code(answer: &mut Answer, code: &Code) {
    answer.show(&code.name);
    answer.add(" ");
    answer.show(&code.max_stack);
    answer.add(" ");
    answer.show(&code.max_locals);
    tell_instrs(answer, code.instrs.as_slice());
}

// A line for each constant.
fn tell_pool(answer: &mut Answer, pool: &Pool) {
    for entry in pool.entries() {
        answer.line();
        tell_constant(answer, entry);
    }
}

// What a constant is, and its text or the numbers that it names.
fn tell_constant(answer: &mut Answer, entry: &Const) {
    match entry {
        Const::Utf8(text) => answer.pair("Utf8 ", text.as_str()),
        Const::Integer(number) => write!(answer, "Integer {number}"),
        Const::Class(name) => write!(answer, "Class {name}"),
        Const::Text(text) => write!(answer, "Text {text}"),
        Const::Field(class, member) => write!(answer, "Field {class} {member}"),
        Const::Method(class, member) => write!(answer, "Method {class} {member}"),
        Const::NameAndType(name, of) => write!(answer, "NameAndType {name} {of}"),
    }
}
