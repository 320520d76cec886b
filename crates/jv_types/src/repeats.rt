//! Names that are declared twice: of types, of typestates, and of the members of a declaration.
//! Each search looks at a name once, in a table of those before it.

ghost use Rattle.std.specs.Prelude.{◌≡◌, [], IfOk, map, option_map};
ghost use Rattle.jv_tree.specs.View.{decl_of};
ghost use Rattle.jv_rules.specs.Members.{decl_entry};
ghost use Rattle.jv_types.specs.inner.Blaming.{blamed_of};
ghost use Rattle.jv_types.specs.inner.Repeating.{member_seen, is_built_in, repeat_type, repeat_typestate, repeat_member, repeat_constant};
ghost use Rattle.jv_types.specs.inner.Repeating.{repeat_in};
ghost use Rattle.jv_rules.specs.inner.Deciding.{first_by};

use crate::blame::{Blamed, note};
use crate::merged::{Member, members};
use jv_tree::Decl;
use mg_text::{Memory, Names, Place, Text};
use std::alloc::Global;
use ts_tree::Typestate;

// Whether a class of this name is built in.
fn is_built_in(name: &str) -> bool
    ensures { result ≡ is_built_in name.now }
{
    name == "Object"
        || name == "String"
        || name == "System"
        || name == "PrintStream"
        || name == "Session"
}

// The place and the name of a class or an enum.
fn declared<'a>(decl: &'a Decl) -> Blamed<'a>
    ensures place { result.place ≡ (decl_entry (decl_of decl.now)).place }
    ensures name { result.name.now ≡ (decl_entry (decl_of decl.now)).name }
{
    match decl {
        Decl::Class(class) => Blamed {
            place: class.place,
            name: class.name.as_str(),
        },
        Decl::Enum(of) => Blamed {
            place: of.place,
            name: of.name.as_str(),
        },
    }
}

// The first class or enum whose name was met, or is that of an earlier one or one that is built in.
fn type_met<'a>(met: &mut Names, decls: &[&'a Decl]) -> Result<Option<Blamed<'a>>, Memory>
    ensures { IfOk result (λ o. option_map blamed_of o ≡ repeat_type met.old (map (λ d. decl_of d.now) decls.now)) }
{
    for decl in decls {
        let declared = declared(decl);
        if is_built_in(declared.name) {
            return Ok(Some(declared));
        }
        let fresh = note(met, declared.name)?;
        if !fresh {
            return Ok(Some(declared));
        }
    }
    Ok(None)
}

/// The first class or enum whose name an earlier one or a class that is built in has.
pub(crate) fn repeated_type<'a>(
    alloc: Global,
    decls: &[&'a Decl],
) -> Result<Option<Blamed<'a>>, Memory>
    ensures { IfOk result (λ o. option_map blamed_of o ≡ repeat_type [] (map (λ d. decl_of d.now) decls.now)) }
{
    let mut met = Names::new(alloc);
    type_met(&mut met, decls)
}

// The first typestate whose name was met, or is that of an earlier one.
fn typestate_met<'a>(
    met: &mut Names,
    typestates: &'a [Typestate],
    origins: &[u32],
) -> Result<Option<Blamed<'a>>, Memory>
    ensures { IfOk result (λ o. option_map blamed_of o ≡ repeat_typestate met.old typestates.now origins.now) }
{
    let mut rest = typestates;
    let mut files = origins;
    'typestates: while let Some((typestate, more)) = rest.split_first() {
        let Some((file, others)) = files.split_first() else {
            return Ok(None);
        };
        let name = typestate.name.as_str();
        let fresh = note(met, name)?;
        if !fresh {
            let place = Place::start(*file);
            return Ok(Some(Blamed { place, name }));
        }
        rest = more;
        files = others;
    }
    Ok(None)
}

/// The first typestate whose name an earlier one has. A typestate stands where its file begins.
pub(crate) fn repeated_typestate<'a>(
    alloc: Global,
    typestates: &'a [Typestate],
    origins: &[u32],
) -> Result<Option<Blamed<'a>>, Memory>
    ensures { IfOk result (λ o. option_map blamed_of o ≡ repeat_typestate [] typestates.now origins.now) }
{
    let mut met = Names::new(alloc);
    typestate_met(&mut met, typestates, origins)
}

// The first member whose name was met, or is that of an earlier one of its kind.
fn member_met<'a>(
    fields: &mut Names,
    methods: &mut Names,
    members: &[Member<'a>],
) -> Result<Option<Blamed<'a>>, Memory>
    ensures { IfOk result (λ o. option_map blamed_of o ≡ repeat_member fields.old methods.old (map member_seen members.now)) }
{
    for member in members {
        match member {
            Member::Field(field) => {
                let name = field.name.as_str();
                let fresh = note(fields, name)?;
                if !fresh {
                    let place = field.place;
                    return Ok(Some(Blamed { place, name }));
                }
            }
            Member::Method(method) => {
                let name = method.name.as_str();
                let fresh = note(methods, name)?;
                if !fresh {
                    let place = method.place;
                    return Ok(Some(Blamed { place, name }));
                }
            }
        }
    }
    Ok(None)
}

// The first constant that was met, or stands twice, at the enum's place.
fn constant_met<'a>(
    met: &mut Names,
    place: Place,
    constants: &'a [Text],
) -> Result<Option<Blamed<'a>>, Memory>
    ensures { IfOk result (λ o. option_map blamed_of o ≡ repeat_constant place met.old constants.now) }
{
    for constant in constants {
        let name = constant.as_str();
        let fresh = note(met, name)?;
        if !fresh {
            return Ok(Some(Blamed { place, name }));
        }
    }
    Ok(None)
}

// The first member of a declaration that shares its name.
fn repeated_in<'a>(alloc: Global, decl: &'a Decl) -> Result<Option<Blamed<'a>>, Memory>
    ensures { IfOk result (λ o. option_map blamed_of o ≡ repeat_in (decl_of decl.now)) }
{
    match decl {
        Decl::Class(class) => {
            let members = members(alloc, class)?;
            let mut fields = Names::new(alloc);
            let mut methods = Names::new(alloc);
            member_met(&mut fields, &mut methods, members.as_slice())
        }
        Decl::Enum(of) => {
            let mut met = Names::new(alloc);
            constant_met(&mut met, of.place, of.constants.as_slice())
        }
    }
}

/// The first member of a declaration that shares its name with an earlier one of its kind there.
pub(crate) fn repeated<'a>(alloc: Global, decls: &[&'a Decl]) -> Result<Option<Blamed<'a>>, Memory>
    ensures { IfOk result (λ o. option_map blamed_of o ≡ first_by repeat_in (map (λ d. decl_of d.now) decls.now)) }
{
    for decl in decls {
        let found = repeated_in(alloc, decl)?;
        if found.is_some() {
            return Ok(found);
        }
    }
    Ok(None)
}
