//! What a typestate demands of the methods of its class: that they are there, their signatures,
//! and the labels that they answer with.

ghost use Rattle.std.specs.Prelude.{◌≡◌, [], ◌&&◌, IfOk, OnOk, Some, map, option_map};
ghost use Rattle.ts_tree.specs.View.{method_of as offer_of, target_of};
ghost use Rattle.jv_tree.specs.View.{method_of};
ghost use Rattle.jv_meaning.specs.Program.{method_named};
ghost use Rattle.jv_rules.specs.inner.Deciding.{first_by};
ghost use Rattle.jv_types.specs.Tables.{program_in};
ghost use Rattle.jv_types.specs.declared.demands.Demand.TheVariants as demands;
ghost use Rattle.jv_types.specs.inner.Blaming.{blamed_of, noted};
ghost use Rattle.jv_types.specs.inner.Declaring.{missing_method, missing_in_class, type_eq, types_eq, all_in};
ghost use Rattle.jv_types.specs.inner.Declaring.{are_constants, are_labels_of, other_labels, breaks_it, broken_names};
ghost use Rattle.jv_types.specs.inner.Declaring.{broken_by_name, broken_method, broken_in_class};
ghost use Rattle.jv_types.specs.inner.Kept.{typestate_in};
ghost use Rattle.jv_types.specs.inner.Offering.{offers_seen};
ghost use Rattle.jv_types.specs.inner.Tabled.{class_in, enum_in, IsEntryOf, AreEntriesOf};

use crate::blame::{Blamed, note};
use crate::entry::{ClassEntry, EnumEntry};
use crate::name_table::Table;
use jv_tree::{MethodDecl, Param};
use mg_text::{Memory, Names, Text};
use std::alloc::Global;
use ts_tree::{Branch, Method, Target, TypeName};

/// What is demanded of a method that is there.
#[derive(Clone, Copy)]
pub(crate) enum Demand {
    /// The result and the parameters of the typestate.
    OfSignature,
    /// An enum as the result with exactly the labels of the typestate's answers, where it has some.
    OfLabels,
}

// The first method that a class lacks as an instance method.
fn missing_in<'a>(entry: &ClassEntry<'_>, methods: &[&'a Method]) -> Option<Blamed<'a>>
    ensures { option_map blamed_of result ≡ first_by (missing_method (class_in entry.now)) (offers_seen methods.now) }
{
    for item in methods {
        let found = missing(entry, item);
        if found.is_some() {
            return found;
        }
    }
    None
}

// A method, where the class lacks it.
fn missing<'a>(entry: &ClassEntry<'_>, demanded: &'a Method) -> Option<Blamed<'a>>
    ensures { option_map blamed_of result ≡ missing_method (class_in entry.now) (offer_of demanded.now) }
{
    let name = demanded.name.as_str();
    let place = entry.class.place;
    match entry.method(name) {
        Some(method) => {
            if method.is_static {
                return Some(Blamed { place, name });
            }
            None
        }
        None => Some(Blamed { place, name }),
    }
}

// The first method that a class lacks of those that its typestate has. Each name is looked up once.
fn missing_of_class<'a>(table: &Table<'a>, entry: &ClassEntry<'a>) -> Option<Blamed<'a>>
    requires { IsEntryOf (program_in table.now) entry.now }
    ensures { option_map blamed_of result ≡ missing_in_class (typestate_in entry.now) (class_in entry.now) }
{
    match table.protocol_of(entry) {
        Some(protocol) => missing_in(entry, protocol.firsts.as_slice()),
        None => None,
    }
}

/// The first method that a class lacks of those that its typestate has.
pub(crate) fn missing_method<'a>(
    table: &Table<'a>,
    entries: &[ClassEntry<'a>],
) -> Option<Blamed<'a>>
    requires { AreEntriesOf (program_in table.now) entries.now }
    ensures { option_map blamed_of result ≡ first_by (λ e. missing_in_class (typestate_in e) (class_in e)) entries.now }
{
    for item in entries {
        let found = missing_of_class(table, item);
        if found.is_some() {
            return found;
        }
    }
    None
}

fn same_type(left: &TypeName, right: &TypeName) -> bool
    ensures { result ≡ type_eq left.now right.now }
{
    match left {
        TypeName::Void => matches!(right, TypeName::Void),
        TypeName::Int => matches!(right, TypeName::Int),
        TypeName::Boolean => matches!(right, TypeName::Boolean),
        TypeName::Text => matches!(right, TypeName::Text),
        TypeName::Named(name) => match right {
            TypeName::Named(other) => name.as_str() == other.as_str(),
            _ => false,
        },
    }
}

fn same_types(left: &[TypeName], right: &[Param]) -> bool
    ensures { result ≡ types_eq left.now (map (λ p. p.ty) right.now) }
{
    let mut lefts = left;
    let mut rights = right;
    'types: while let Some((one, more)) = lefts.split_first() {
        let Some((other, others)) = rights.split_first() else {
            return false;
        };
        if !same_type(one, &other.ty) {
            return false;
        }
        lefts = more;
        rights = others;
    }
    rights.is_empty()
}

fn both(left: bool, right: bool) -> bool
    ensures { result ≡ (left && right) }
{
    left && right
}

// Whether each label is a constant of an enum.
fn are_in_enum(entry: &EnumEntry<'_>, branches: &[Branch]) -> bool
    ensures { result ≡ all_in (enum_in entry.now).constants (map (λ b. b.label) branches.now) }
{
    for item in branches {
        if !entry.has_constant(item.label.as_str()) {
            return false;
        }
    }
    true
}

fn label_names(alloc: Global, branches: &[Branch]) -> Result<Names, Memory>
    ensures { IfOk result (λ n. n ≡ noted [] (map (λ b. b.label) branches.now)) }
{
    let mut met = Names::new(alloc);
    for item in branches {
        let _fresh = note(&mut met, item.label.as_str())?;
    }
    Ok(met)
}

// Whether a table has each of these names.
#[tactic(auto, using(crate::proofs::Demanding::tables))]
fn has_all(names: &Names, texts: &[Text]) -> bool
    ensures { result ≡ all_in names.now texts.now }
{
    for item in texts {
        if names.find(item.as_str()).is_none() {
            return false;
        }
    }
    true
}

// Whether labels are exactly the constants of an enum.
#[tactic(auto, using(crate::proofs::Demanding::tables))]
fn are_constants(alloc: Global, entry: &EnumEntry<'_>, branches: &[Branch]) -> Result<bool, Memory>
    ensures { IfOk result (λ b. b ≡ are_constants (Some (enum_in entry.now)) (map (λ b. b.label) branches.now)) }
{
    let labels = label_names(alloc, branches)?;
    Ok(both(
        are_in_enum(entry, branches),
        has_all(&labels, entry.of.constants.as_slice()),
    ))
}

fn are_labels_of(
    alloc: Global,
    table: &Table<'_>,
    ty: &TypeName,
    branches: &[Branch],
) -> Result<bool, Memory>
    ensures { IfOk result (λ b. b ≡ are_labels_of (program_in table.now) ty.now (map (λ b. b.label) branches.now)) }
{
    match ty {
        TypeName::Void | TypeName::Int | TypeName::Boolean | TypeName::Text => Ok(false),
        TypeName::Named(name) => match table.enum_named(name.as_str()) {
            Some(entry) => are_constants(alloc, entry, branches),
            None => Ok(false),
        },
    }
}

/// Whether an answer has other labels than the constants of a type.
pub(crate) fn other_labels(
    alloc: Global,
    table: &Table<'_>,
    ty: &TypeName,
    target: &Target,
) -> Result<bool, Memory>
    ensures { IfOk result (λ b. b ≡ other_labels (program_in table.now) ty.now (target_of target.now)) }
{
    match target {
        Target::One(_) => Ok(false),
        Target::ByAnswer(branches) => {
            let alike = are_labels_of(alloc, table, ty, branches.as_slice())?;
            Ok(!alike)
        }
    }
}

// Whether the instance method of this name, where there is one, breaks what is demanded of it.
fn breaks_it(
    alloc: Global,
    table: &Table<'_>,
    demand: Demand,
    entry: &ClassEntry<'_>,
    demanded: &Method,
) -> Result<bool, Memory>
    ensures { IfOk result (λ b. b ≡ breaks_it (program_in table.now) demand (method_named (class_in entry.now) demanded.now.name)
        (offer_of demanded.now)) }
{
    let Some(method) = entry.method(demanded.name.as_str()) else {
        return Ok(false);
    };
    if method.is_static {
        return Ok(false);
    }
    match demand {
        Demand::OfSignature => {
            let alike = both(
                same_type(&demanded.result, &method.result),
                same_types(demanded.params.as_slice(), method.params.as_slice()),
            );
            Ok(!alike)
        }
        Demand::OfLabels => other_labels(alloc, table, &method.result, &demanded.target),
    }
}

// Notes the names of the methods that break what is demanded of them.
fn note_broken(
    alloc: Global,
    table: &Table<'_>,
    demand: Demand,
    entry: &ClassEntry<'_>,
    met: &mut Names,
    methods: &[&Method],
) -> Result<(), Memory>
    ensures { OnOk result (met.new ≡ broken_names (program_in table.now) demand (class_in entry.now) met.old (offers_seen methods.now)) }
{
    for item in methods {
        if breaks_it(alloc, table, demand, entry, item)? {
            let _fresh = note(met, item.name.as_str())?;
        }
    }
    Ok(())
}

// The first method whose name is among these.
fn first_of<'a>(met: &Names, methods: &'a [MethodDecl]) -> Option<Blamed<'a>>
    ensures { option_map blamed_of result ≡ first_by (broken_by_name met.now) (map method_of methods.now) }
{
    for item in methods {
        let name = item.name.as_str();
        if met.find(name).is_some() {
            let place = item.place;
            return Some(Blamed { place, name });
        }
    }
    None
}

/// The first method that breaks what these methods of a typestate demand.
pub(crate) fn broken_by<'a>(
    alloc: Global,
    table: &Table<'_>,
    demand: Demand,
    entry: &ClassEntry<'a>,
    methods: &[&Method],
) -> Result<Option<Blamed<'a>>, Memory>
    ensures { IfOk result (λ o. option_map blamed_of o ≡ first_by (broken_method (program_in table.now) demand (offers_seen methods.now))
        (class_in entry.now).methods) }
{
    let mut met = Names::new(alloc);
    note_broken(alloc, table, demand, entry, &mut met, methods)?;
    Ok(first_of(&met, entry.class.methods.as_slice()))
}

// The first instance method of a class with another signature than its typestate has.
// Methods of one name have one signature there, so each name is looked up once.
fn other_signature<'a>(
    alloc: Global,
    table: &Table<'a>,
    entry: &ClassEntry<'a>,
) -> Result<Option<Blamed<'a>>, Memory>
    requires { IsEntryOf (program_in table.now) entry.now }
    ensures { IfOk result (λ o. option_map blamed_of o ≡ broken_in_class (program_in table.now) demands.OfSignature (typestate_in entry.now)
        (class_in entry.now)) }
{
    match table.protocol_of(entry) {
        Some(protocol) => {
            let firsts = protocol.firsts.as_slice();
            broken_by(alloc, table, Demand::OfSignature, entry, firsts)
        }
        None => Ok(None),
    }
}

/// The first instance method with another signature than the typestate of its class has.
pub(crate) fn signature_differs<'a>(
    alloc: Global,
    table: &Table<'a>,
    entries: &[ClassEntry<'a>],
) -> Result<Option<Blamed<'a>>, Memory>
    requires { AreEntriesOf (program_in table.now) entries.now }
    ensures { IfOk result (λ o. option_map blamed_of o
        ≡ first_by (λ e. broken_in_class (program_in table.now) demands.OfSignature (typestate_in e) (class_in e)) entries.now) }
{
    for item in entries {
        let found = other_signature(alloc, table, item)?;
        if found.is_some() {
            return Ok(found);
        }
    }
    Ok(None)
}
