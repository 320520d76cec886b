//! The code of a method (JVMS 4.7.3), with its handlers and the tables of its lines and variables.

ghost use Rattle.std.specs.Prelude.{◌≡◌, []};
ghost use Rattle.jcf_tree.specs.Tree.{code_of};
ghost use Rattle.jcf_read.specs.Answer.{Gives, folded};
ghost use Rattle.jcf_read.specs.Front.{front_of};
ghost use Rattle.jcf_read.specs.Pool.{pool_of};
ghost use Rattle.jcf_read.specs.Codes.{target_at, covered_at, handler_turn, handlers_at, line_turn, lines_at, variable_turn, variables_at};
ghost use Rattle.jcf_read.specs.Codes.{table_turn, tables_at, sizes_at, code_at};

use crate::attributes::{attribute_at, content_of, ends_at, is_named};
use crate::fault::{FaultKind, ReadError};
use crate::front::{Front, run_of, u2_at, u4_at, wrong};
use crate::jumps::{checked, misses};
use crate::pool::{Pool, named_at, named_or_none_at};
use jcf_tree::{Code, Const, Handler, Kind, Line, Variable};
use mg_text::{Bytes, List};
use std::alloc::Global;

/// A place of a code, which is the beginning of an instruction or the code's end.
#[tactic(auto, unfolding(crate::specs::Codes::target_at))]
fn target_at(
    front: Front,
    marks: &[bool],
    length: usize,
    at: usize,
) -> Result<(u16, usize), ReadError>
    ensures { Gives (λ x. x) result (target_at marks.now length (front_of front.entry) at) }
{
    let (place, after) = u2_at(front, at)?;
    if misses(marks, length, place as usize) {
        return Err(wrong(FaultKind::BadJump, at));
    }
    Ok((place, after))
}

/// The bounds of what a handler covers.
#[tactic(auto, unfolding(crate::specs::Codes::covered_at))]
fn covered_at(
    front: Front,
    marks: &[bool],
    length: usize,
    at: usize,
) -> Result<((u16, u16), usize), ReadError>
    ensures { Gives (λ x. x) result (covered_at marks.now length (front_of front.entry) at) }
{
    let (start, middle) = target_at(front, marks, length, at)?;
    let (end, after) = target_at(front, marks, length, middle)?;
    Ok(((start, end), after))
}

/// One handler more.
#[tactic(auto, unfolding(crate::specs::Codes::handler_turn))]
fn add_handler(
    front: Front,
    pool: &Pool,
    marks: &[bool],
    length: usize,
    handlers: &mut List<Handler>,
    at: usize,
) -> Result<usize, ReadError>
    ensures { Gives (λ x. (handlers.new.items, x)) result
        (handler_turn (pool_of pool.now) marks.now length (front_of front.entry) (handlers.old.items, at)) }
{
    let ((start, end), middle) = covered_at(front, marks, length, at)?;
    let (handler, last) = target_at(front, marks, length, middle)?;
    let (catches, after) = named_or_none_at(front, pool, Kind::Class, last)?;
    handlers.push(Handler {
        start,
        end,
        handler,
        catches,
    })?;
    Ok(after)
}

/// So many handlers more.
fn add_handlers(
    front: Front,
    pool: &Pool,
    marks: &[bool],
    length: usize,
    handlers: &mut List<Handler>,
    count: u16,
    at: usize,
) -> Result<usize, ReadError>
    ensures { Gives (λ x. (handlers.new.items, x)) result
        (folded (handler_turn (pool_of pool.now) marks.now length (front_of front.entry)) count (handlers.old.items, at)) }
{
    let mut place = at;
    for _ in 0..count {
        let after = add_handler(front, pool, marks, length, handlers, place)?;
        place = after;
    }
    Ok(place)
}

/// The handlers, behind their count.
#[tactic(auto, unfolding(crate::specs::Codes::handlers_at))]
fn handlers_at(
    alloc: Global,
    front: Front,
    pool: &Pool,
    marks: &[bool],
    length: usize,
    at: usize,
) -> Result<(List<Handler>, usize), ReadError>
    ensures { Gives (λ x. (x.0.items, x.1)) result (handlers_at (pool_of pool.now) marks.now length (front_of front.entry) at) }
{
    let (count, from) = u2_at(front, at)?;
    let mut handlers = List::new(alloc);
    let after = add_handlers(front, pool, marks, length, &mut handlers, count, from)?;
    Ok((handlers, after))
}

/// One line more.
#[tactic(auto, unfolding(crate::specs::Codes::line_turn))]
fn add_line(front: Front, lines: &mut List<Line>, at: usize) -> Result<usize, ReadError>
    ensures { Gives (λ x. (lines.new.items, x)) result (line_turn (front_of front.entry) (lines.old.items, at)) }
{
    let (start, middle) = u2_at(front, at)?;
    let (line, after) = u2_at(front, middle)?;
    lines.push(Line { start, line })?;
    Ok(after)
}

/// So many lines more.
fn add_so_many_lines(
    front: Front,
    lines: &mut List<Line>,
    count: u16,
    at: usize,
) -> Result<usize, ReadError>
    ensures { Gives (λ x. (lines.new.items, x)) result (folded (line_turn (front_of front.entry)) count (lines.old.items, at)) }
{
    let mut place = at;
    for _ in 0..count {
        let after = add_line(front, lines, place)?;
        place = after;
    }
    Ok(place)
}

/// The lines of a table, behind those of others before it.
#[tactic(auto, unfolding(crate::specs::Codes::lines_at))]
fn add_lines(front: Front, lines: &mut List<Line>, at: usize) -> Result<usize, ReadError>
    ensures { Gives (λ x. (lines.new.items, x)) result (lines_at (front_of front.entry) (lines.old.items, at)) }
{
    let (count, from) = u2_at(front, at)?;
    add_so_many_lines(front, lines, count, from)
}

/// One variable more.
#[tactic(auto, unfolding(crate::specs::Codes::variable_turn))]
fn add_variable(
    front: Front,
    pool: &Pool,
    variables: &mut List<Variable>,
    at: usize,
) -> Result<usize, ReadError>
    ensures { Gives (λ x. (variables.new.items, x)) result
        (variable_turn (pool_of pool.now) (front_of front.entry) (variables.old.items, at)) }
{
    let (start, second) = u2_at(front, at)?;
    let (length, third) = u2_at(front, second)?;
    let (name, fourth) = named_at(front, pool, Kind::Text, third)?;
    let (descriptor, fifth) = named_at(front, pool, Kind::Text, fourth)?;
    let (local, after) = u2_at(front, fifth)?;
    variables.push(Variable {
        start,
        length,
        name,
        descriptor,
        local,
    })?;
    Ok(after)
}

/// So many variables more.
fn add_so_many_variables(
    front: Front,
    pool: &Pool,
    variables: &mut List<Variable>,
    count: u16,
    at: usize,
) -> Result<usize, ReadError>
    ensures { Gives (λ x. (variables.new.items, x)) result
        (folded (variable_turn (pool_of pool.now) (front_of front.entry)) count (variables.old.items, at)) }
{
    let mut place = at;
    for _ in 0..count {
        let after = add_variable(front, pool, variables, place)?;
        place = after;
    }
    Ok(place)
}

/// The variables of a table, behind those of others before it.
#[tactic(auto, unfolding(crate::specs::Codes::variables_at))]
fn add_variables(
    front: Front,
    pool: &Pool,
    variables: &mut List<Variable>,
    at: usize,
) -> Result<usize, ReadError>
    ensures { Gives (λ x. (variables.new.items, x)) result
        (variables_at (pool_of pool.now) (front_of front.entry) (variables.old.items, at)) }
{
    let (count, from) = u2_at(front, at)?;
    add_so_many_variables(front, pool, variables, count, from)
}

/// One attribute of a code more: a table of lines or of variables is read, others aren't.
#[tactic(auto, unfolding(crate::specs::Codes::table_turn))]
fn add_table(
    front: Front,
    pool: &Pool,
    constants: &[Const],
    lines: &mut List<Line>,
    variables: &mut List<Variable>,
    at: usize,
) -> Result<usize, ReadError>
    ensures { Gives (λ x. (lines.new.items, variables.new.items, x)) result
        (table_turn (pool_of pool.now) constants.now (front_of front.entry) (lines.old.items, variables.old.items, at)) }
{
    let attribute = attribute_at(front, pool, at)?;
    let content = content_of(front, attribute.to);
    if is_named(constants, attribute.name, b"LineNumberTable") {
        let end = add_lines(content, lines, attribute.from)?;
        return ends_at(end, attribute.to);
    }
    if is_named(constants, attribute.name, b"LocalVariableTable") {
        let end = add_variables(content, pool, variables, attribute.from)?;
        return ends_at(end, attribute.to);
    }
    Ok(attribute.to)
}

/// So many attributes of a code more.
fn add_tables(
    front: Front,
    pool: &Pool,
    constants: &[Const],
    lines: &mut List<Line>,
    variables: &mut List<Variable>,
    count: u16,
    at: usize,
) -> Result<usize, ReadError>
    ensures { Gives (λ x. (lines.new.items, variables.new.items, x)) result
        (folded (table_turn (pool_of pool.now) constants.now (front_of front.entry)) count (lines.old.items, variables.old.items, at)) }
{
    let mut place = at;
    for _ in 0..count {
        let after = add_table(front, pool, constants, lines, variables, place)?;
        place = after;
    }
    Ok(place)
}

/// The attributes of a code, behind their count.
#[tactic(auto, unfolding(crate::specs::Codes::tables_at))]
fn tables_at(
    alloc: Global,
    front: Front,
    pool: &Pool,
    constants: &[Const],
    at: usize,
) -> Result<(List<Line>, List<Variable>, usize), ReadError>
    ensures { Gives (λ x. (x.0.items, x.1.items, x.2)) result (tables_at (pool_of pool.now) constants.now (front_of front.entry) at) }
{
    let (count, from) = u2_at(front, at)?;
    let mut lines = List::new(alloc);
    let mut variables = List::new(alloc);
    let after = add_tables(
        front,
        pool,
        constants,
        &mut lines,
        &mut variables,
        count,
        from,
    )?;
    Ok((lines, variables, after))
}

/// How many words of operands and of locals there are.
#[tactic(auto, unfolding(crate::specs::Codes::sizes_at))]
fn sizes_at(front: Front, at: usize) -> Result<((u16, u16), usize), ReadError>
    ensures { Gives (λ x. x) result (sizes_at (front_of front.entry) at) }
{
    let (max_stack, middle) = u2_at(front, at)?;
    let (max_locals, after) = u2_at(front, middle)?;
    Ok(((max_stack, max_locals), after))
}

/// What an attribute of code holds.
#[tactic(auto, unfolding(crate::specs::Codes::code_at))]
pub(crate) fn code_at(
    alloc: Global,
    front: Front,
    pool: &Pool,
    constants: &[Const],
    at: usize,
) -> Result<(Code, usize), ReadError>
    ensures { Gives (λ x. (code_of x.0, x.1)) result (code_at (pool_of pool.now) constants.now (front_of front.entry) at) }
{
    let ((max_stack, max_locals), second) = sizes_at(front, at)?;
    let (length, from) = u4_at(front, second)?;
    let (code, end) = run_of(front, from, length as usize)?;
    let marks = checked(alloc, pool, code, end)?;
    let (handlers, last) = handlers_at(alloc, front, pool, marks.as_slice(), code.len(), end)?;
    let (lines, variables, after) = tables_at(alloc, front, pool, constants, last)?;
    let bytes = Bytes::of(alloc, code)?;
    let code = Code {
        max_stack,
        max_locals,
        bytes,
        handlers,
        lines,
        variables,
    };
    Ok((code, after))
}
