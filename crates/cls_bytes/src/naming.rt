//! Whether the numbers of a class name constants of the kinds that their places need.
//! What else makes a class well formed is known where it was read.

ghost use Rattle.std.specs.Prelude.{◌≡◌};
ghost use Rattle.std.specs.List.{list_all};
ghost use Rattle.cls_tree.specs.Pool.{tag_of};
ghost use Rattle.cls_tree.specs.View.{instr_of, inner_of, attr_of, member_of, class_of};
ghost use Rattle.cls_bytes.specs.Naming.{has_tag, const_names, form_names, instr_names, inner_names, attr_names, member_names, heads_name, methods_name, bodies_name, class_names};

use cls_tree::{Args, Attr, Class, Const, Form, Instr, Member, form_of};

/// The number by which a kind of constant is known.
fn tag_of(constant: &Const) -> u8
    ensures { result ≡ tag_of constant.now }
{
    match constant {
        Const::Utf8(_) => 1,
        Const::Integer(_) => 3,
        Const::Class(_) => 7,
        Const::Text(_) => 8,
        Const::Field(_, _) => 9,
        Const::Method(_, _) => 10,
        Const::NameAndType(_, _) => 12,
    }
}

/// Whether there is a constant of this number, and it is of this kind.
#[tactic(auto, unfolding(crate::specs::Naming::has_tag))]
fn has_tag(pool: &[Const], number: u16, tag: u8) -> bool
    ensures { result ≡ has_tag pool.now number tag }
{
    if number == 0 || number as usize > pool.len() {
        return false;
    }
    tag_of(&pool[number as usize - 1]) == tag
}

/// Whether a constant names what it needs.
fn const_names(pool: &[Const], constant: &Const) -> bool
    ensures { result ≡ const_names pool.now constant.now }
{
    match constant {
        Const::Utf8(_) | Const::Integer(_) => true,
        Const::Class(name) | Const::Text(name) => has_tag(pool, *name, 1),
        Const::Field(class, member) | Const::Method(class, member) => {
            has_tag(pool, *class, 7) && has_tag(pool, *member, 12)
        }
        Const::NameAndType(name, descriptor) => {
            has_tag(pool, *name, 1) && has_tag(pool, *descriptor, 1)
        }
    }
}

/// Whether the number behind an opcode names what it needs.
fn form_names(pool: &[Const], form: Option<Form>, number: u16) -> bool
    ensures { result ≡ form_names pool.now form number }
{
    match form {
        Some(Form::NearConstant | Form::Constant) => {
            has_tag(pool, number, 3) || has_tag(pool, number, 8)
        }
        Some(Form::Field) => has_tag(pool, number, 9),
        Some(Form::Method) => has_tag(pool, number, 10),
        Some(Form::Class) => has_tag(pool, number, 7),
        _ => true,
    }
}

/// Whether an instruction names what it needs.
fn instr_names(pool: &[Const], instr: &Instr) -> bool
    ensures { result ≡ instr_names pool.now (instr_of instr.now) }
{
    match &instr.args {
        Args::Pool(number) => form_names(pool, form_of(instr.op), *number),
        _ => true,
    }
}

/// Whether each instruction does.
fn instrs_name(pool: &[Const], instrs: &[Instr]) -> bool
    ensures { result ≡ list_all (λ i. instr_names pool.now (instr_of i)) instrs.now }
{
    instrs.iter().all(|instr| instr_names(pool, instr))
}

/// Whether the name of an attribute of a code is one.
#[tactic(auto, using(cls_tree::proofs::Views::views))]
fn inner_names(pool: &[Const], attribute: &Attr) -> bool
    ensures { result ≡ inner_names pool.now (inner_of attribute.now) }
{
    match attribute {
        Attr::Code(_) => false,
        Attr::Other { name, .. } => has_tag(pool, *name, 1),
    }
}

/// Whether each name of an attribute of a code is one.
fn inners_name(pool: &[Const], attributes: &[Attr]) -> bool
    ensures { result ≡ list_all (λ a. inner_names pool.now (inner_of a)) attributes.now }
{
    attributes
        .iter()
        .all(|attribute| inner_names(pool, attribute))
}

/// Whether an attribute names what it needs.
#[tactic(auto, using(cls_tree::proofs::Views::views, crate::proofs::Mapped::mapped))]
fn attr_names(pool: &[Const], attribute: &Attr) -> bool
    ensures { result ≡ attr_names pool.now (attr_of attribute.now) }
{
    match attribute {
        Attr::Code(code) => {
            instrs_name(pool, code.instrs.as_slice())
                && inners_name(pool, code.attributes.as_slice())
        }
        Attr::Other { name, .. } => has_tag(pool, *name, 1),
    }
}

/// Whether each attribute does.
fn attrs_name(pool: &[Const], attributes: &[Attr]) -> bool
    ensures { result ≡ list_all (λ a. attr_names pool.now (attr_of a)) attributes.now }
{
    attributes
        .iter()
        .all(|attribute| attr_names(pool, attribute))
}

/// Whether a field or a method names what it needs.
#[tactic(auto, using(crate::proofs::Mapped::mapped))]
fn member_names(pool: &[Const], member: &Member) -> bool
    ensures { result ≡ member_names pool.now (member_of member.now) }
{
    has_tag(pool, member.name, 1)
        && has_tag(pool, member.descriptor, 1)
        && attrs_name(pool, member.attributes.as_slice())
}

/// Whether each field or method does.
fn members_name(pool: &[Const], members: &[Member]) -> bool
    ensures { result ≡ list_all (λ m. member_names pool.now (member_of m)) members.now }
{
    members.iter().all(|member| member_names(pool, member))
}

/// Whether each constant does.
fn consts_name(pool: &[Const], constants: &[Const]) -> bool
    ensures { result ≡ list_all (λ c. const_names pool.now c) constants.now }
{
    constants.iter().all(|constant| const_names(pool, constant))
}

/// Whether the constants of a class do, and those of itself and of the class above it are classes.
#[tactic(auto, unfolding(crate::specs::Naming::heads_name))]
fn heads_name(class: &Class) -> bool
    ensures { result ≡ heads_name (class_of class.now) }
{
    let pool = class.pool.as_slice();
    consts_name(pool, pool)
        && has_tag(pool, class.this_class, 7)
        && has_tag(pool, class.super_class, 7)
}

/// Whether the methods and attributes of a class do.
#[tactic(auto, using(crate::proofs::Mapped::mapped), unfolding(crate::specs::Naming::methods_name))]
fn methods_name(class: &Class) -> bool
    ensures { result ≡ methods_name (class_of class.now) }
{
    let pool = class.pool.as_slice();
    members_name(pool, class.methods.as_slice()) && attrs_name(pool, class.attributes.as_slice())
}

/// Whether the fields, methods and attributes of a class do.
#[tactic(auto, using(crate::proofs::Mapped::mapped), unfolding(crate::specs::Naming::bodies_name))]
fn bodies_name(class: &Class) -> bool
    ensures { result ≡ bodies_name (class_of class.now) }
{
    members_name(class.pool.as_slice(), class.fields.as_slice()) && methods_name(class)
}

/// Whether each number of a class names what it needs.
pub(crate) fn class_names(class: &Class) -> bool
    ensures { result ≡ class_names (class_of class.now) }
{
    heads_name(class) && bodies_name(class)
}
