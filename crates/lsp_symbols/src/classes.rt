//! What a Java source declares.

ghost use Rattle.std.specs.Prelude.{◌≡◌, ◌++◌, IfOk, OnOk, map};
ghost use Rattle.std.specs.List.{flat_map};
ghost use Rattle.jv_tree.specs.View.{field_of, method_of, class_of, decl_of, file_of};
ghost use Rattle.lsp_symbols.specs.Classes.{field_declared, method_declared, class_declared, decl_declared, classes_in};

use crate::things::{Declared, put};
use jv_tree::{Class, Decl, Field, File, MethodDecl};
use lsp_messages::SymbolKind;
use mg_text::{Memory, Text};
use std::alloc::Global;

// Appends the fields of a class.
fn put_fields(declared: &mut Vec<Declared>, class: &Text, fields: &[Field]) -> Result<(), Memory>
    ensures { OnOk result (declared.new.items ≡ declared.old.items ++ map (field_declared class.now) (map field_of fields.now)) }
{
    for field in fields {
        put(
            declared,
            &field.name,
            SymbolKind::Field,
            field.place,
            Some(class),
        )?;
    }
    Ok(())
}

// Appends the methods of a class.
fn put_methods(
    declared: &mut Vec<Declared>,
    class: &Text,
    methods: &[MethodDecl],
) -> Result<(), Memory>
    ensures { OnOk result (declared.new.items ≡ declared.old.items ++ map (method_declared class.now) (map method_of methods.now)) }
{
    for method in methods {
        put(
            declared,
            &method.name,
            SymbolKind::Method,
            method.place,
            Some(class),
        )?;
    }
    Ok(())
}

// Appends a class, its fields and its methods.
fn put_class(declared: &mut Vec<Declared>, class: &Class) -> Result<(), Memory>
    ensures { OnOk result (declared.new.items ≡ declared.old.items ++ class_declared (class_of class.now)) }
{
    put(declared, &class.name, SymbolKind::Class, class.place, None)?;
    put_fields(declared, &class.name, class.fields.as_slice())?;
    put_methods(declared, &class.name, class.methods.as_slice())
}

// Appends what a declaration of a file declares.
fn put_decl(declared: &mut Vec<Declared>, decl: &Decl) -> Result<(), Memory>
    ensures { OnOk result (declared.new.items ≡ declared.old.items ++ decl_declared (decl_of decl.now)) }
{
    match decl {
        Decl::Class(class) => put_class(declared, class),
        Decl::Enum(choice) => put(declared, &choice.name, SymbolKind::Enum, choice.place, None),
    }
}

// Appends what declarations of a file declare.
fn put_decls(declared: &mut Vec<Declared>, decls: &[Decl]) -> Result<(), Memory>
    ensures { OnOk result (declared.new.items ≡ declared.old.items ++ flat_map decl_declared (map decl_of decls.now)) }
{
    for decl in decls {
        put_decl(declared, decl)?;
    }
    Ok(())
}

/// What a Java source declares: each class with its fields and then its methods, and each enum, in
/// the order of the text.
///
/// # Errors
/// `Memory` only.
pub(crate) fn classes_in(alloc: Global, file: &File) -> Result<Vec<Declared>, Memory>
    ensures { IfOk result (λ v. v.items ≡ classes_in (file_of file.now)) }
{
    let mut declared = Vec::new(alloc);
    put_decls(&mut declared, file.decls.as_slice())?;
    Ok(declared)
}
