//! Words, signs and texts.

ghost use Rattle.std.specs.Prelude.{◌≡◌, ◌++◌, OnOk, string_bytes};
ghost use Rattle.std.specs.List.{flat_map};
ghost use Rattle.std.specs.Char.{encode_utf8};
ghost use Rattle.jv_tree.specs.Expressions.{truth_word};
ghost use Rattle.jv_print.specs.Layout.{character, quoted_text, type_text, op_text};

use jv_tree::Op;
use mg_text::Memory;
use ts_tree::TypeName;

pub fn truth_word(truth: bool) -> &'static str
    ensures { result.now ≡ truth_word truth }
{
    if truth { "true" } else { "false" }
}

pub fn type_text(ty: &TypeName) -> &str
    ensures { result.now ≡ type_text ty.now }
{
    match ty {
        TypeName::Void => "void",
        TypeName::Int => "int",
        TypeName::Boolean => "boolean",
        TypeName::Text => "String",
        TypeName::Named(name) => name.as_str(),
    }
}

pub fn op_text(op: Op) -> &'static str
    ensures { result.now ≡ op_text op }
{
    match op {
        Op::Or => "||",
        Op::And => "&&",
        Op::Eq => "==",
        Op::Ne => "!=",
        Op::Lt => "<",
        Op::Le => "<=",
        Op::Gt => ">",
        Op::Ge => ">=",
        Op::Add => "+",
        Op::Sub => "-",
        Op::Mul => "*",
        Op::Div => "/",
        Op::Rem => "%",
    }
}

/// Writes a text between quotes, with escapes for what can't stand there by itself.
pub fn put_quoted(out: &mut String, text: &str) -> Result<(), Memory>
    ensures { OnOk result (string_bytes out.new ≡ string_bytes out.old ++ quoted_text text.now) }
{
    out.push_str("\"")?;
    for c in text.chars() {
        put_character(out, c)?;
    }
    out.push_str("\"")?;
    Ok(())
}

// Writes a character of a text, or its escape.
fn put_character(out: &mut String, c: char) -> Result<(), Memory>
    ensures { OnOk result (string_bytes out.new ≡ string_bytes out.old ++ flat_map character (encode_utf8 c)) }
{
    match c {
        '\u{8}' => out.push_str("\\b")?,
        '\t' => out.push_str("\\t")?,
        '\n' => out.push_str("\\n")?,
        '\u{c}' => out.push_str("\\f")?,
        '\r' => out.push_str("\\r")?,
        '"' => out.push_str("\\\"")?,
        '\\' => out.push_str("\\\\")?,
        _ => out.push(c)?,
    }
    Ok(())
}
