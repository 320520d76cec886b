//! Where code stands: its class and its method, and what is around it.
//! Contracts see it as the place of code on trees.

ghost use Rattle.std.specs.Prelude.{◌≡◌, option_map};
ghost use Rattle.jv_resolve_law.specs.Expressions.{own_found, found};
ghost use Rattle.jv_resolve_law.specs.Statements.{is_label, labelled, innermost, left_by, gone_on_by};
ghost use Rattle.jv_resolve.specs.inner.Gives.{Gives};
ghost use Rattle.jv_resolve.specs.inner.Seen.{tables_seen, standing_seen, found_seen, around_seen};

use crate::given::Unresolved;
use crate::locals::Locals;
use crate::lookup::{field_named, meant};
use jv_core::{CoreType, Var};
use jv_types::{ClassEntry, Table};
use std::alloc::Global;

/// Where code stands.
#[derive(Clone, Copy)]
pub(crate) struct Scope<'s, 'a> {
    pub alloc: Global,
    pub table: &'s Table<'a>,
    pub class: &'s ClassEntry<'a>,
    pub is_static: bool,
}

/// The loops and switches around a statement, the innermost first. A loop has its label and its
/// number.
#[derive(Clone, Copy)]
pub(crate) enum Around<'s> {
    Outside,
    Loop(Option<&'s str>, u32, &'s Around<'s>),
    Switch(&'s Around<'s>),
}

/// A variable and its type.
#[derive(Clone, Copy)]
pub(crate) struct Found {
    pub var: Var,
    pub ty: CoreType,
}

impl Scope<'_, '_> {
    /// The own field of a name, which is visible in instance methods alone.
    pub(crate) fn own_field(&self, name: &str) -> Result<Option<Found>, Unresolved>
        ensures { Gives (option_map found_seen) result (own_found (tables_seen self.now.table.now) (standing_seen self.now) name.now) }
    {
        if self.is_static {
            return Ok(None);
        }
        match field_named(self.class, name) {
            None => Ok(None),
            Some(placed) => {
                let ty = meant(self.table, &placed.field.ty)?;
                Ok(Some(Found {
                    var: Var::Field(placed.place),
                    ty,
                }))
            }
        }
    }

    /// The variable of a name: a local or a parameter, else an own field.
    pub(crate) fn variable(
        &self,
        locals: &Locals<'_>,
        name: &str,
    ) -> Result<Option<Found>, Unresolved>
        ensures { Gives (option_map found_seen) result
            (found (tables_seen self.now.table.now) (standing_seen self.now) locals.now name.now) }
    {
        match locals.find(name) {
            Some(local) => Ok(Some(Found {
                var: Var::Slot(local.slot),
                ty: local.ty,
            })),
            None => self.own_field(name),
        }
    }
}

/// The loop that a `break` leaves, or none where it leaves the innermost switch.
pub(crate) fn left_by(around: &Around<'_>, label: Option<&str>) -> Result<Option<u32>, Unresolved>
    ensures { Gives (λ n. n) result (left_by (around_seen around.now) (option_map (λ l. l.now) label.entry)) }
{
    let Some(label) = label else {
        return match around {
            Around::Outside => Err(Unresolved::Fault),
            Around::Loop(_, number, _) => Ok(Some(*number)),
            Around::Switch(_) => Ok(None),
        };
    };
    let number = labelled(around, label)?;
    Ok(Some(number))
}

// The innermost loop with a label.
fn labelled(around: &Around<'_>, label: &str) -> Result<u32, Unresolved>
    ensures { Gives (λ n. n) result (labelled (around_seen around.now) label.now) }
{
    match around {
        Around::Outside => Err(Unresolved::Fault),
        Around::Loop(own, number, further) => {
            if is_label(*own, label) {
                return Ok(*number);
            }
            labelled(further, label)
        }
        Around::Switch(further) => labelled(further, label),
    }
}

// Whether a loop has this label.
fn is_label(own: Option<&str>, label: &str) -> bool
    ensures { result ≡ is_label (option_map (λ l. l.now) own.entry) label.now }
{
    match own {
        None => false,
        Some(own) => own == label,
    }
}

/// The loop that a `continue` goes on with.
pub(crate) fn gone_on_by(around: &Around<'_>, label: Option<&str>) -> Result<u32, Unresolved>
    ensures { Gives (λ n. n) result (gone_on_by (around_seen around.now) (option_map (λ l. l.now) label.entry)) }
{
    match label {
        None => innermost(around),
        Some(label) => labelled(around, label),
    }
}

// The innermost loop.
fn innermost(around: &Around<'_>) -> Result<u32, Unresolved>
    ensures { Gives (λ n. n) result (innermost (around_seen around.now)) }
{
    match around {
        Around::Outside => Err(Unresolved::Fault),
        Around::Loop(_, number, _) => Ok(*number),
        Around::Switch(further) => innermost(further),
    }
}
