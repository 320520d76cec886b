//! The conditions on methods, one method after another in file and text order.

ghost use Rattle.std.specs.Prelude.{◌≡◌, None as Missing, IfErr, OnOk, map};
ghost use Rattle.jv_tree.specs.View.{class_of, method_of};
ghost use Rattle.jv_rules.specs.Faults.{IsFault};
ghost use Rattle.jv_rules.specs.inner.Deciding.{is_void};
ghost use Rattle.jv_types.specs.Outcome.{TellsFault};
ghost use Rattle.jv_types.specs.Tables.{program_in};
ghost use Rattle.jv_types.specs.inner.Methods.{fault_at_end, fault_in_method, fault_in_methods, fault_in_classes};
ghost use Rattle.jv_types.specs.inner.Stating.{Answers};
ghost use Rattle.jv_types.specs.inner.Tabled.{class_in, IsEntryOf, AreEntriesOf};

use crate::completes::completes;
use crate::entry::ClassEntry;
use crate::fault::{TypeFault, fault_of};
use crate::judged::Wrong;
use crate::locals::Locals;
use crate::name_table::Table;
use crate::params::check_params;
use crate::scope::{Around, Scope};
use crate::stmts::check_stmts;
use jv_rules::Condition;
use jv_tree::MethodDecl;
use std::alloc::Global;
use ts_tree::TypeName;

// Whether a result is none.
fn is_void(ty: &TypeName) -> bool
    ensures { result ≡ is_void ty.now }
{
    matches!(ty, TypeName::Void)
}

// Judges the end of a method: the body of one with a result can't complete.
fn check_end<'a>(alloc: Global, method: &'a MethodDecl) -> Result<(), Wrong<'a>>
    ensures { Answers (fault_at_end (method_of method.now)) result }
{
    if is_void(&method.result) {
        return Ok(());
    }
    let missing = completes(alloc, method.body.as_slice())?;
    if missing {
        return Err(Wrong::Fault(Condition::MissingReturn, method.end, ""));
    }
    Ok(())
}

// Judges a method: its parameters, its body, and its end.
fn check_method<'a>(
    alloc: Global,
    table: &Table<'a>,
    class: &ClassEntry<'a>,
    method: &'a MethodDecl,
) -> Result<(), Wrong<'a>>
    requires { IsEntryOf (program_in table.now) class.now }
    ensures { Answers (fault_in_method (program_in table.now) (class_in class.now) (method_of method.now)) result }
{
    let scope = Scope {
        alloc,
        table,
        class,
        method,
        around: &Around::Outside,
    };
    let mut locals = Locals::new(alloc);
    check_params(&scope, &mut locals, method.params.as_slice())?;
    check_stmts(&scope, &mut locals, method.body.as_slice())?;
    check_end(alloc, method)
}

// Judges the methods of a class.
fn check_class<'a>(
    alloc: Global,
    table: &Table<'a>,
    class: &ClassEntry<'a>,
) -> Result<(), Wrong<'a>>
    requires { IsEntryOf (program_in table.now) class.now }
    ensures { Answers (fault_in_methods (program_in table.now) (class_in class.now) (class_in class.now).methods) result }
{
    for method in class.class.methods.as_slice() {
        check_method(alloc, table, class, method)?;
    }
    Ok(())
}

// Judges classes.
fn check_classes<'a>(
    alloc: Global,
    table: &Table<'a>,
    classes: &[ClassEntry<'a>],
) -> Result<(), Wrong<'a>>
    requires { AreEntriesOf (program_in table.now) classes.now }
    ensures { Answers (fault_in_classes (program_in table.now) (map class_in classes.now)) result }
{
    for class in classes {
        check_class(alloc, table, class)?;
    }
    Ok(())
}

/// Judges the methods of a program whose declarations have no type fault.
///
/// # Errors
/// The first fault in the methods, method by method in file and text order, operands before the
/// expression or statement that takes them, and at one place that of the lowest number; and
/// `Memory`.
pub fn type_check(alloc: Global, table: &Table<'_>) -> Result<(), TypeFault>
    ensures fine { OnOk result (IsFault (program_in table.now) Missing) }
    ensures fault { IfErr result (λ e. TellsFault (IsFault (program_in table.now)) e) }
{
    match check_classes(alloc, table, table.classes()) {
        Ok(()) => Ok(()),
        Err(wrong) => Err(fault_of(alloc, wrong)),
    }
}
