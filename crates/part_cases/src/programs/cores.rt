//! The enums, classes and methods of a core, a line for each.

use cases::Answer;
use jv_core::{Core, CoreClass, CoreEnum, CoreField, CoreMethod};
use mg_text::{Name, Names};

/// Tells a line for each enum, class and method.
pub(crate) fn tell(answer: &mut Answer, core: &Core) {
    let names = core.names();
    for of in core.enums() {
        tell_enum(answer, names, of);
    }
    for class in core.classes() {
        tell_class(answer, names, class);
    }
    for method in core.methods() {
        tell_method(answer, names, method);
    }
}

// A line for an enum: its name and its constants.
fn tell_enum(answer: &mut Answer, names: &Names, of: &CoreEnum) {
    answer.line();
    answer.pair("enum ", text_of(names, of.name));
    for constant in of.constants.as_slice() {
        answer.pair(" ", text_of(names, *constant));
    }
}

// A line for a class: its place, name, typestate, fields with their values, and methods.
fn tell_class(answer: &mut Answer, names: &Names, class: &CoreClass) {
    answer.line();
    answer.add("class ");
    answer.place(class.place);
    answer.pair(" ", text_of(names, class.name));
    answer.add(" ");
    answer.tell(&class.typestate);
    for field in class.fields.as_slice() {
        tell_field(answer, names, field);
    }
    answer.add(" ");
    answer.tell(&class.methods.as_slice());
}

fn tell_field(answer: &mut Answer, names: &Names, field: &CoreField) {
    answer.pair(" ", text_of(names, field.name));
    answer.add(":");
    answer.tell(&field.ty);
    if let Some(value) = &field.value {
        answer.add("=");
        answer.tell(&value.kind);
    }
}

// A line for a method: where it begins and ends, the number of its class, its name, kind, result
// and count of parameters, its slots, and its loops with their slots in scope.
fn tell_method(answer: &mut Answer, names: &Names, method: &CoreMethod) {
    let name = text_of(names, method.name);
    let (class, params) = (method.class, method.params);
    let (kind, result) = (method.kind, method.result);
    answer.line();
    answer.add("method ");
    answer.place(method.place);
    answer.add(" ");
    answer.place(method.end);
    write!(answer, " {class} {name} {kind:?} {result:?} {params}");
    for slot in method.slots.as_slice() {
        answer.pair(" ", text_of(names, slot.name));
        answer.add(":");
        answer.tell(&slot.ty);
    }
    for found in method.loops.as_slice() {
        answer.add(" loop ");
        answer.place(found.place);
        answer.add(" ");
        answer.tell(&found.scope.as_slice());
    }
}

// The text of a name.
fn text_of(names: &Names, name: Name) -> &str {
    if (name.0 as usize) < names.len() {
        names.text(name)
    } else {
        "?"
    }
}
