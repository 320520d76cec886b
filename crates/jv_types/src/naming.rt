//! Tables of the names of declarations and of their members.

ghost use Rattle.std.specs.Prelude.{◌≡◌, [], IfOk, map, position};
ghost use Rattle.std.specs.Str.{bytes_eq};
ghost use Rattle.jv_types.specs.inner.Blaming.{noted};

use crate::blame::note;
use crate::entry::{ClassEntry, EnumEntry};
use jv_tree::{Field, MethodDecl};
use mg_text::{Memory, Names, Text};
use std::alloc::Global;
use ts_tree::Typestate;

/// The names of fields.
pub(crate) fn field_names(alloc: Global, fields: &[Field]) -> Result<Names, Memory>
    ensures { IfOk result (λ n. n ≡ noted [] (map (λ f. f.name) fields.now)) }
{
    let mut met = Names::new(alloc);
    for item in fields {
        let _fresh = note(&mut met, item.name.as_str())?;
    }
    Ok(met)
}

/// The names of methods.
pub(crate) fn method_names(alloc: Global, methods: &[MethodDecl]) -> Result<Names, Memory>
    ensures { IfOk result (λ n. n ≡ noted [] (map (λ m. m.name) methods.now)) }
{
    let mut met = Names::new(alloc);
    for item in methods {
        let _fresh = note(&mut met, item.name.as_str())?;
    }
    Ok(met)
}

/// The names of constants.
pub(crate) fn constant_names(alloc: Global, constants: &[Text]) -> Result<Names, Memory>
    ensures { IfOk result (λ n. n ≡ noted [] constants.now) }
{
    let mut met = Names::new(alloc);
    for item in constants {
        let _fresh = note(&mut met, item.as_str())?;
    }
    Ok(met)
}

/// The names of typestates.
pub(crate) fn typestate_names(alloc: Global, typestates: &[Typestate]) -> Result<Names, Memory>
    ensures { IfOk result (λ n. n ≡ noted [] (map (λ t. t.name) typestates.now)) }
{
    let mut met = Names::new(alloc);
    for item in typestates {
        let _fresh = note(&mut met, item.name.as_str())?;
    }
    Ok(met)
}

/// The names of classes.
pub(crate) fn class_names(alloc: Global, entries: &[ClassEntry<'_>]) -> Result<Names, Memory>
    ensures { IfOk result (λ n. n ≡ noted [] (map (λ e. e.class.now.name) entries.now)) }
{
    let mut met = Names::new(alloc);
    for item in entries {
        let _fresh = note(&mut met, item.class.name.as_str())?;
    }
    Ok(met)
}

/// The names of enums.
pub(crate) fn enum_names(alloc: Global, entries: &[EnumEntry<'_>]) -> Result<Names, Memory>
    ensures { IfOk result (λ n. n ≡ noted [] (map (λ e. e.of.now.name) entries.now)) }
{
    let mut met = Names::new(alloc);
    for item in entries {
        let _fresh = note(&mut met, item.of.name.as_str())?;
    }
    Ok(met)
}

/// The place of a name in a table of names.
pub(crate) fn place_of(names: &Names, name: &str) -> Option<u32>
    ensures { result ≡ position (bytes_eq name.now) names.now }
{
    match names.find(name) {
        Some(number) => Some(number.0),
        None => None,
    }
}
