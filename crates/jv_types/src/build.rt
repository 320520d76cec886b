//! The tables of a program whose names are all new where they are declared.
//! Each declaration is looked at once, and no tree is copied.

ghost use Rattle.std.specs.Prelude.{◌≡◌, ◌+◌, ◌≤◌, ◌-◌, ◌^◌, ◌++◌, [], IfOk, OnOk, Option, None, true, map, length, flat_map};
ghost use Rattle.std.specs.Prelude.{option_map, option_and_then};
ghost use Rattle.jv_tree.specs.View.{class_of, enum_of, decl_of};
ghost use Rattle.jv_meaning.specs.Program.{typestate_named};
ghost use Rattle.jv_rules.specs.Members.{members_of};
ghost use Rattle.jv_rules.specs.inner.Deciding.{first_by};
ghost use Rattle.jv_types.specs.Tables.{program_in};
ghost use Rattle.jv_types.specs.View.{program_of};
ghost use Rattle.jv_types.specs.inner.Blaming.{are_new};
ghost use Rattle.jv_types.specs.inner.Repeating.{repeat_member, repeat_constant, repeat_type, repeat_in};
ghost use Rattle.jv_types.specs.inner.Kept.{class_kept, enum_kept, kept_classes, kept_decls, kept_enums, typestate_in, followed};
ghost use Rattle.jv_types.specs.inner.Numbers.{AreNumbered, numbers_in, numbers_from, number_named, classes_seen};

use crate::entry::{ClassEntry, EnumEntry, NamedTypestate};
use crate::name_table::Table;
use crate::naming::{
    class_names, constant_names, enum_names, field_names, method_names, typestate_names,
};
use crate::protocols::{Protocol, protocols};
use jv_tree::{Class, Decl, Enum, File};
use mg_text::{Memory, Names};
use std::alloc::Global;
use ts_tree::Typestate;

// Adds the declarations of a file.
fn add_decls<'a>(all: &mut Vec<&'a Decl>, decls: &'a [Decl]) -> Result<(), Memory>
    ensures { OnOk result (map (λ d. d.now) all.new.items ≡ map (λ d. d.now) all.old.items ++ decls.now) }
{
    for decl in decls {
        all.push(decl)?;
    }
    Ok(())
}

/// The declarations of files, in file and text order.
pub(crate) fn declarations<'a>(alloc: Global, files: &'a [File]) -> Result<Vec<&'a Decl>, Memory>
    ensures { IfOk result (λ v. map (λ d. d.now) v.items ≡ kept_decls files.now) }
{
    let mut all = Vec::new(alloc);
    for file in files {
        add_decls(&mut all, file.decls.as_slice())?;
    }
    Ok(all)
}

// The typestate that a class names, where it names one and that is there.
#[tactic(auto, using(crate::proofs::Finding::found))]
fn typestate_for<'a>(
    names: &Names,
    typestates: &'a [Typestate],
    class: &Class,
) -> Option<NamedTypestate<'a>>
    requires { names.now ≡ map (λ t. t.name) typestates.now }
    ensures it { option_map (λ t. t.typestate.now) result ≡ option_and_then (typestate_named typestates.now) class.now.typestate }
    ensures number { option_map (λ t. t.number) result ≡ number_named names.now class.now.typestate }
{
    let name = match &class.typestate {
        Some(name) => name,
        None => return None,
    };
    match names.find(name.as_str()) {
        Some(number) => Some(NamedTypestate {
            number: number.0,
            typestate: &typestates[number.0 as usize],
        }),
        None => None,
    }
}

// The entry of a class with this number, whose first method has this one.
fn class_entry<'a>(
    alloc: Global,
    number: u32,
    first_method: u32,
    class: &'a Class,
    typestate: Option<NamedTypestate<'a>>,
) -> Result<ClassEntry<'a>, Memory>
    requires new { repeat_member [] [] (members_of (class_of class.now)) ≡ None }
    requires fits { first_method + length class.now.methods.items ≤ 2 ^ 32 - 1 }
    ensures class { IfOk result (λ e. e.class.now ≡ class.now) }
    ensures typestate { IfOk result (λ e. typestate_in e ≡ option_map (λ t. t.typestate.now) typestate.entry) }
    ensures named { IfOk result (λ e. option_map (λ t. t.number) e.typestate ≡ option_map (λ t. t.number) typestate.entry) }
    ensures number { IfOk result (λ e. e.number ≡ number) }
    ensures first_method { IfOk result (λ e. e.first_method ≡ first_method) }
{
    let fields = field_names(alloc, class.fields.as_slice())?;
    let methods = method_names(alloc, class.methods.as_slice())?;
    Ok(ClassEntry {
        class,
        number,
        first_method,
        typestate,
        fields,
        methods,
    })
}

// A number behind so many others, where there is one.
fn number_behind(number: u32, count: usize) -> Result<u32, Memory>
    ensures { IfOk result (λ n. n ≡ number + count) }
{
    let count = match u32::try_from(count) {
        Ok(count) => count,
        Err(_) => return Err(Memory),
    };
    match number.checked_add(count) {
        Some(sum) => Ok(sum),
        None => Err(Memory),
    }
}

// The entry of an enum.
fn enum_entry<'a>(alloc: Global, of: &'a Enum) -> Result<EnumEntry<'a>, Memory>
    requires { repeat_constant of.now.place [] of.now.constants.items ≡ None }
    ensures { IfOk result (λ e. e.of.now ≡ of.now) }
{
    let constants = constant_names(alloc, of.constants.as_slice())?;
    Ok(EnumEntry { of, constants })
}

// Adds the entry of a class behind entries with so many methods. Of an enum nothing is added.
fn add_class<'a>(
    alloc: Global,
    names: &Names,
    typestates: &'a [Typestate],
    entries: &mut Vec<ClassEntry<'a>>,
    methods: &mut u32,
    decl: &'a Decl,
) -> Result<(), Memory>
    requires names { names.now ≡ map (λ t. t.name) typestates.now }
    requires member { repeat_in (decl_of decl.now) ≡ None }
    ensures classes { OnOk result (map (λ e. e.class.now) entries.new.items ≡ map (λ e. e.class.now) entries.old.items
        ++ class_kept decl.now) }
    ensures follow { OnOk result (map typestate_in entries.old.items ≡ map (followed typestates.now) entries.old.items →
        map typestate_in entries.new.items ≡ map (followed typestates.now) entries.new.items) }
    ensures numbers { OnOk result (AreNumbered names.now methods.old entries.old.items →
        AreNumbered names.now methods.new entries.new.items) }
{
    let Decl::Class(class) = decl else {
        return Ok(());
    };
    let typestate = typestate_for(names, typestates, class);
    let number = number_behind(0, entries.len())?;
    let first_method = *methods;
    let behind = number_behind(first_method, class.methods.len())?;
    let entry = class_entry(alloc, number, first_method, class, typestate)?;
    entries.push(entry)?;
    *methods = behind;
    Ok(())
}

// The entries of the classes.
fn class_entries<'a>(
    alloc: Global,
    names: &Names,
    typestates: &'a [Typestate],
    decls: &[&'a Decl],
) -> Result<Vec<ClassEntry<'a>>, Memory>
    requires names { names.now ≡ map (λ t. t.name) typestates.now }
    requires members { first_by repeat_in (map (λ d. decl_of d.now) decls.now) ≡ None }
    ensures classes { IfOk result (λ es. map (λ e. e.class.now) es.items ≡ flat_map class_kept (map (λ d. d.now) decls.now)) }
    ensures follow { IfOk result (λ es. map typestate_in es.items ≡ map (followed typestates.now) es.items) }
    ensures numbers { IfOk result (λ es. map numbers_in es.items ≡ numbers_from names.now 0 0 (classes_seen es.items)) }
{
    let mut entries = Vec::new(alloc);
    let mut methods: u32 = 0;
    for decl in decls {
        add_class(alloc, names, typestates, &mut entries, &mut methods, decl)?;
    }
    Ok(entries)
}

// Adds the entry of an enum. Of a class nothing is added.
fn add_enum<'a>(
    alloc: Global,
    entries: &mut Vec<EnumEntry<'a>>,
    decl: &'a Decl,
) -> Result<(), Memory>
    requires { repeat_in (decl_of decl.now) ≡ None }
    ensures { OnOk result (map (λ e. e.of.now) entries.new.items ≡ map (λ e. e.of.now) entries.old.items ++ enum_kept decl.now) }
{
    let Decl::Enum(of) = decl else {
        return Ok(());
    };
    let entry = enum_entry(alloc, of)?;
    entries.push(entry)?;
    Ok(())
}

// The entries of the enums.
fn enum_entries<'a>(alloc: Global, decls: &[&'a Decl]) -> Result<Vec<EnumEntry<'a>>, Memory>
    requires { first_by repeat_in (map (λ d. decl_of d.now) decls.now) ≡ None }
    ensures { IfOk result (λ es. map (λ e. e.of.now) es.items ≡ flat_map enum_kept (map (λ d. d.now) decls.now)) }
{
    let mut entries = Vec::new(alloc);
    for decl in decls {
        add_enum(alloc, &mut entries, decl)?;
    }
    Ok(entries)
}

// The tables of these entries.
fn tabled<'a>(
    alloc: Global,
    files: &'a [File],
    typestates: &'a [Typestate],
    typestate_names: Names,
    protocols: Vec<Protocol<'a>>,
    classes: Vec<ClassEntry<'a>>,
    enums: Vec<EnumEntry<'a>>,
) -> Result<Table<'a>, Memory>
    requires types { repeat_type [] (map decl_of (kept_decls files.now)) ≡ None }
    requires named { typestate_names ≡ map (λ t. t.name) typestates.now }
    requires protocols { map (λ p. p.of.now) protocols.items ≡ typestates.now }
    requires classes { map (λ e. e.class.now) classes.items ≡ kept_classes files.now }
    requires follow { map typestate_in classes.items ≡ map (followed typestates.now) classes.items }
    requires numbers { map numbers_in classes.items ≡ numbers_from typestate_names 0 0 (classes_seen classes.items) }
    requires enums { map (λ e. e.of.now) enums.items ≡ kept_enums files.now }
    ensures { IfOk result (λ t. program_in t ≡ program_of files.now typestates.now) }
{
    let class_names = class_names(alloc, classes.as_slice())?;
    let enum_names = enum_names(alloc, enums.as_slice())?;
    Ok(Table {
        files,
        typestates,
        protocols,
        typestate_names,
        classes,
        class_names,
        enums,
        enum_names,
    })
}

/// The tables of a program, in which no name is declared twice.
pub(crate) fn build<'a>(
    alloc: Global,
    files: &'a [File],
    typestates: &'a [Typestate],
    decls: &[&'a Decl],
) -> Result<Table<'a>, Memory>
    requires decls { map (λ d. d.now) decls.now ≡ kept_decls files.now }
    requires types { repeat_type [] (map decl_of (kept_decls files.now)) ≡ None }
    requires typestates { are_new [] (map (λ t. t.name) typestates.now) ≡ true }
    requires members { first_by repeat_in (map (λ d. decl_of d.now) decls.now) ≡ None }
    ensures { IfOk result (λ t. program_in t ≡ program_of files.now typestates.now) }
{
    let names = typestate_names(alloc, typestates)?;
    let classes = class_entries(alloc, &names, typestates, decls)?;
    let enums = enum_entries(alloc, decls)?;
    let protocols = protocols(alloc, typestates)?;
    tabled(alloc, files, typestates, names, protocols, classes, enums)
}
