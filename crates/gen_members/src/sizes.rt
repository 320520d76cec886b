//! How many bytes instructions take (JVMS chapter 6).

ghost use Rattle.std.specs.Prelude.{◌≡◌, ◌≤◌, ◌<◌, ◌^◌};
ghost use Rattle.jv_core.specs.Tree.{Program};
ghost use Rattle.gen_expressions.specs.View.{operand_of};
ghost use Rattle.gen_members.specs.Laid.{size_at};
ghost use Rattle.gen_members.specs.Sizes.{number_size, local_size, jump_size, table_size, pool_size, sized};

use cls_tree::{Form, form_of};
use gen_expressions::{Operand, Symbolic};

/// How many bytes a number takes behind an opcode of a form.
fn number_size(form: Option<Form>) -> usize
    ensures size { result ≡ number_size form }
    ensures few { result ≤ 2 }
{
    match form {
        Some(Form::Byte) => 1,
        Some(Form::Short) => 2,
        _ => 0,
    }
}

/// How many bytes a local takes.
fn local_size(form: Option<Form>) -> usize
    ensures size { result ≡ local_size form }
    ensures few { result ≤ 2 }
{
    match form {
        Some(Form::Local) => 1,
        _ => 0,
    }
}

/// How many bytes a jump takes.
fn jump_size(form: Option<Form>) -> usize
    ensures size { result ≡ jump_size form }
    ensures few { result ≤ 2 }
{
    match form {
        Some(Form::Jump) => 2,
        _ => 0,
    }
}

/// How many bytes a table of so many offsets takes at a place, behind its opcode.
fn table_size(form: Option<Form>, place: usize, count: usize) -> usize
    requires { count < 2 ^ 32 }
    ensures size { result ≡ table_size form place count }
    ensures few { result ≤ 2 ^ 35 }
{
    match form {
        Some(Form::Table) => 3 - place % 4 + 12 + 4 * count,
        _ => 0,
    }
}

/// How many bytes the number of a constant takes.
fn pool_size(form: Option<Form>) -> usize
    ensures size { result ≡ pool_size form }
    ensures few { result ≤ 2 }
{
    match form {
        Some(Form::NearConstant) => 1,
        Some(Form::Constant | Form::Field | Form::Method | Form::Class) => 2,
        _ => 0,
    }
}

/// How many bytes stand behind the opcode of an instruction at a place, where its constant has this
/// number.
#[tactic(auto, using(crate::proofs::Sizing::sizing))]
fn args_size(form: Option<Form>, place: usize, operand: &Operand<'_>, number: usize) -> usize
    ensures size { (p : Program) → result ≡ sized form place number (operand_of p operand.now) }
    ensures few { result ≤ 2 ^ 35 }
{
    match operand {
        Operand::Nothing => 0,
        Operand::Int(_) | Operand::Text(_) => if number < 256 { 1 } else { 2 },
        Operand::Number(_) => number_size(form),
        Operand::Local(_) => local_size(form),
        Operand::Jump(_) => jump_size(form),
        Operand::Table { targets, .. } => table_size(form, place, targets.len()),
        Operand::Class(_) | Operand::Field { .. } | Operand::Method(_) => pool_size(form),
        Operand::Constructor(_) | Operand::BuiltIn(_) => pool_size(form),
    }
}

/// How many bytes an instruction takes at a place, where its constant has this number.
#[tactic(auto, using(crate::proofs::Sizing::sizing))]
pub(crate) fn size_at(place: usize, instr: &Symbolic<'_>, number: usize) -> usize
    ensures size { (p : Program) → result ≡ size_at place instr.now.op (operand_of p instr.now.operand) number }
    ensures few { result ≤ 2 ^ 36 }
{
    1 + args_size(form_of(instr.op), place, &instr.operand, number)
}
