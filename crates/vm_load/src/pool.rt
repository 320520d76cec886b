//! What the numbers of a pool name (JVMS 4.4). Numbers count from 1.
//! In a well-formed class each names what its place needs.

ghost use Rattle.std.specs.Prelude.{◌≡◌, option_map};
ghost use Rattle.vm_model.specs.Links.{or_empty};
ghost use Rattle.cls_tree.specs.Pool.{const_at, text_at, class_at, field_at, method_at, name_and_type_at, reference};
ghost use Rattle.vm_load.specs.Declaring.{named_of, member_of};

use cls_tree::Const;

/// A name and a descriptor.
#[derive(Clone, Copy)]
pub(crate) struct NamedType<'a> {
    pub name: &'a str,
    pub descriptor: &'a str,
}

/// A member of a class, by their names.
#[derive(Clone, Copy)]
pub(crate) struct Named<'a> {
    pub class: &'a str,
    pub name: &'a str,
    pub descriptor: &'a str,
}

/// The constant of this number.
pub(crate) fn constant(pool: &[Const], number: u16) -> Option<&Const>
    ensures { option_map (λ c. c.now) result ≡ const_at pool.now number }
{
    if number == 0 {
        return None;
    }
    pool.get(number as usize - 1)
}

/// The text of this number.
pub(crate) fn text_at(pool: &[Const], number: u16) -> Option<&str>
    ensures { option_map (λ t. t.now) result ≡ text_at pool.now number }
{
    match constant(pool, number) {
        Some(Const::Utf8(text)) => Some(text.as_str()),
        _ => None,
    }
}

/// The name of the class of this number.
pub(crate) fn class_at(pool: &[Const], number: u16) -> Option<&str>
    ensures { option_map (λ t. t.now) result ≡ class_at pool.now number }
{
    match constant(pool, number) {
        Some(Const::Class(name)) => text_at(pool, *name),
        _ => None,
    }
}

/// A text that may be absent, which is then empty.
pub(crate) fn or_empty(text: Option<&str>) -> &str
    ensures { result.now ≡ or_empty (option_map (λ t. t.now) text.entry) }
{
    match text {
        Some(text) => text,
        None => "",
    }
}

/// The name and the descriptor of this number.
fn named_type_at(pool: &[Const], number: u16) -> Option<NamedType<'_>>
    ensures { option_map named_of result ≡ name_and_type_at pool.now number }
{
    match constant(pool, number) {
        Some(Const::NameAndType(name, descriptor)) => {
            let name = text_at(pool, *name)?;
            let descriptor = text_at(pool, *descriptor)?;
            Some(NamedType { name, descriptor })
        }
        _ => None,
    }
}

/// The member of these numbers.
fn referred(pool: &[Const], class: u16, member: u16) -> Option<Named<'_>>
    ensures { option_map member_of result ≡ reference pool.now class member }
{
    let class = class_at(pool, class)?;
    let member = named_type_at(pool, member)?;
    Some(Named {
        class,
        name: member.name,
        descriptor: member.descriptor,
    })
}

/// The field of this number.
pub(crate) fn field_at(pool: &[Const], number: u16) -> Option<Named<'_>>
    ensures { option_map member_of result ≡ field_at pool.now number }
{
    match constant(pool, number) {
        Some(Const::Field(class, member)) => referred(pool, *class, *member),
        _ => None,
    }
}

/// The method of this number.
pub(crate) fn method_at(pool: &[Const], number: u16) -> Option<Named<'_>>
    ensures { option_map member_of result ≡ method_at pool.now number }
{
    match constant(pool, number) {
        Some(Const::Method(class, member)) => referred(pool, *class, *member),
        _ => None,
    }
}
