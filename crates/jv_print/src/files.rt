//! Members, declarations and files.

ghost use Rattle.std.specs.Prelude.{◌≡◌, ◌++◌, [], OnOk, IfOk, string_bytes, map, option_map};
ghost use Rattle.std.specs.List.{flat_map};
ghost use Rattle.jv_tree.specs.View.{expr_of, field_of, method_of, class_of, enum_of, decl_of, file_of};
ghost use Rattle.jv_print.specs.Layout.{layout, decl_lines, enum_lines, class_lines, names_text, annotation};
ghost use Rattle.jv_print.specs.Layout.{method_lines, field_line, field_value, all_params, params_text, static_text};

use crate::exprs::put_expr;
use crate::stmts::put_block;
use crate::words::{put_quoted, type_text};
use crate::writing::put;
use jv_tree::{Class, Decl, Enum, Expr, Field, File, MethodDecl, Param};
use mg_text::{Memory, Text};
use std::alloc::Global;

/// The text of a file: `public` classes, enums and methods, `private` fields, four spaces a level.
/// The only error is want of memory.
#[tactic(auto, using(crate::proofs::Laid::decl_steps))]
pub fn print_file(alloc: Global, file: &File) -> Result<Text, Memory>
    ensures { IfOk result (λ t. t ≡ layout (file_of file.now)) }
{
    let mut out = String::new(alloc);
    for decl in file.decls.as_slice() {
        put_decl(&mut out, decl)?;
    }
    Ok(Text::from_string(out))
}

fn put_decl(out: &mut String, decl: &Decl) -> Result<(), Memory>
    ensures { OnOk result (string_bytes out.new ≡ string_bytes out.old ++ decl_lines (decl_of decl.now)) }
{
    match decl {
        Decl::Class(class) => put_class(out, class),
        Decl::Enum(of) => put_enum(out, of),
    }
}

#[tactic(auto, using(crate::proofs::Laid::laid))]
fn put_enum(out: &mut String, of: &Enum) -> Result<(), Memory>
    ensures { OnOk result (string_bytes out.new ≡ string_bytes out.old ++ enum_lines (enum_of of.now)) }
{
    put(out, &["public enum ", of.name.as_str(), " {\n    "])?;
    put_names(out, of.constants.as_slice())?;
    put(out, &["\n}\n"])
}

// Writes names, with commas between them.
#[tactic(auto, using(crate::proofs::Laid::name_steps))]
fn put_names(out: &mut String, names: &[Text]) -> Result<(), Memory>
    ensures { OnOk result (string_bytes out.new ≡ string_bytes out.old ++ names_text [] names.now) }
{
    let mut before = "";
    for name in names {
        put(out, &[before, name.as_str()])?;
        before = ", ";
    }
    Ok(())
}

#[tactic(auto, using(crate::proofs::Laid::laid))]
fn put_class(out: &mut String, class: &Class) -> Result<(), Memory>
    ensures { OnOk result (string_bytes out.new ≡ string_bytes out.old ++ class_lines (class_of class.now)) }
{
    put_annotation(out, &class.typestate)?;
    put(out, &["public class ", class.name.as_str(), " {\n"])?;
    put_fields(out, class.fields.as_slice())?;
    put_methods(out, class.methods.as_slice())?;
    put(out, &["}\n"])
}

#[tactic(auto, using(crate::proofs::Laid::laid))]
fn put_annotation(out: &mut String, typestate: &Option<Text>) -> Result<(), Memory>
    ensures { OnOk result (string_bytes out.new ≡ string_bytes out.old ++ annotation typestate.now) }
{
    let Some(typestate) = typestate else {
        return Ok(());
    };
    put(out, &["@Typestate("])?;
    put_quoted(out, typestate.as_str())?;
    put(out, &[")\n"])
}

#[tactic(auto, using(crate::proofs::Laid::field_steps))]
fn put_fields(out: &mut String, fields: &[Field]) -> Result<(), Memory>
    ensures { OnOk result (string_bytes out.new ≡ string_bytes out.old ++ flat_map field_line (map field_of fields.now)) }
{
    for field in fields {
        put_field(out, field)?;
    }
    Ok(())
}

#[tactic(auto, using(crate::proofs::Laid::laid))]
fn put_field(out: &mut String, field: &Field) -> Result<(), Memory>
    ensures { OnOk result (string_bytes out.new ≡ string_bytes out.old ++ field_line (field_of field.now)) }
{
    put(
        out,
        &[
            "    private ",
            type_text(&field.ty),
            " ",
            field.name.as_str(),
        ],
    )?;
    put_value(out, &field.value)?;
    put(out, &[";\n"])
}

// Writes the value that a field begins with, if it has one.
#[tactic(auto, using(crate::proofs::Laid::laid))]
fn put_value(out: &mut String, value: &Option<Expr>) -> Result<(), Memory>
    ensures { OnOk result (string_bytes out.new ≡ string_bytes out.old ++ field_value (option_map expr_of value.now)) }
{
    let Some(value) = value else {
        return Ok(());
    };
    put(out, &[" = "])?;
    put_expr(out, value)
}

#[tactic(auto, using(crate::proofs::Laid::method_steps))]
fn put_methods(out: &mut String, methods: &[MethodDecl]) -> Result<(), Memory>
    ensures { OnOk result (string_bytes out.new ≡ string_bytes out.old ++ flat_map method_lines (map method_of methods.now)) }
{
    for method in methods {
        put_method(out, method)?;
    }
    Ok(())
}

#[tactic(auto, using(crate::proofs::Laid::laid))]
fn put_method(out: &mut String, method: &MethodDecl) -> Result<(), Memory>
    ensures { OnOk result (string_bytes out.new ≡ string_bytes out.old ++ method_lines (method_of method.now)) }
{
    put(out, &["    public ", static_text(method.is_static)])?;
    put(
        out,
        &[type_text(&method.result), " ", method.name.as_str(), "("],
    )?;
    put_all_params(out, method.takes_args, method.params.as_slice())?;
    put(out, &[") "])?;
    put_block(out, 1, method.body.as_slice())?;
    put(out, &["\n"])
}

fn static_text(is_static: bool) -> &'static str
    ensures { result.now ≡ static_text is_static }
{
    if is_static { "static " } else { "" }
}

// Writes the parameter of a program's first method, or the method's own parameters.
#[tactic(auto, using(crate::proofs::Laid::laid))]
fn put_all_params(out: &mut String, takes_args: bool, params: &[Param]) -> Result<(), Memory>
    ensures { OnOk result (string_bytes out.new ≡ string_bytes out.old ++ all_params takes_args params.now) }
{
    if takes_args {
        return put(out, &["String[] args"]);
    }
    put_params(out, params)
}

// Writes parameters, with commas between them.
#[tactic(auto, using(crate::proofs::Laid::param_steps))]
fn put_params(out: &mut String, params: &[Param]) -> Result<(), Memory>
    ensures { OnOk result (string_bytes out.new ≡ string_bytes out.old ++ params_text [] params.now) }
{
    let mut before = "";
    for param in params {
        put(
            out,
            &[before, type_text(&param.ty), " ", param.name.as_str()],
        )?;
        before = ", ";
    }
    Ok(())
}
