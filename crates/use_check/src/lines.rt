//! Lines of the report: a variable with the elements of its table.
//! Each function appends what its part of the report says.

ghost use Rattle.std.specs.Prelude.{◌≡◌, ◌++◌, map, option_map, OnOk, string_bytes};
ghost use Rattle.std.specs.List.{flat_map};
ghost use Rattle.mg_sets.specs.Sets.{members};
ghost use Rattle.jv_core.specs.View.{field_of};
ghost use Rattle.jv_core.specs.Lookup.{text_at};
ghost use Rattle.use_rules.specs.Keys.{typestate_of};
ghost use Rattle.use_flow.specs.inner.Fields.{key_in};
ghost use Rattle.use_elements.specs.Mappings.{typestate_or_end};
ghost use Rattle.use_check.specs.Report.{state_text, member_text, set_text, table_text, variable_line, field_lines};
ghost use Rattle.use_check.specs.inner.Reported.{seen};

use jv_core::{Core, CoreField, CoreType, name_text};
use mg_sets::StateSet;
use mg_text::{Memory, Name};
use ts_tree::Typestate;
use use_flow::{FieldTable, TableKey, Tables, class_in, key_of, typestate_of};

/// What is reported: a program, and its tables.
#[derive(Drop)]
pub(crate) struct Reporter<'a> {
    pub core: &'a Core,
    pub tables: &'a Tables,
}

// Appends the name of a state.
#[tactic(auto, using(use_flow::proofs::Scenes::scenes))]
pub(crate) fn put_state(
    out: &mut String,
    typestate: Option<&Typestate>,
    state: usize,
) -> Result<(), Memory>
    ensures { OnOk result (string_bytes out.new ≡ string_bytes out.old
        ++ state_text (typestate_or_end (option_map (λ t. t.now) typestate.entry)) state) }
{
    let Some(typestate) = typestate else {
        return Ok(());
    };
    if let Some(state) = typestate.states.as_slice().get(state) {
        out.push_str(state.name.as_str())?;
    }
    Ok(())
}

// Appends an element by its place, with a blank before it.
#[tactic(auto, using(use_elements::proofs::Leading::leading))]
fn put_member(out: &mut String, typestate: Option<&Typestate>, element: usize) -> Result<(), Memory>
    ensures { OnOk result (string_bytes out.new ≡ string_bytes out.old
        ++ member_text (typestate_or_end (option_map (λ t. t.now) typestate.entry)) element) }
{
    if element == 0 {
        out.push_str(" null")?;
        return Ok(());
    }
    if element == 1 {
        out.push_str(" moved")?;
        return Ok(());
    }
    if element == 2 {
        out.push_str(" end")?;
        return Ok(());
    }
    out.push_str(" ")?;
    put_state(out, typestate, element - 3)
}

// Appends the members of a set, each with a blank before it.
fn put_members(
    out: &mut String,
    typestate: Option<&Typestate>,
    set: &StateSet,
) -> Result<(), Memory>
    ensures { OnOk result (string_bytes out.new ≡ string_bytes out.old
        ++ flat_map (member_text (typestate_or_end (option_map (λ t. t.now) typestate.entry))) (members set.now)) }
{
    for element in 0..set.width() {
        if !set.has(element) {
            continue;
        }
        put_member(out, typestate, element)?;
    }
    Ok(())
}

/// Appends what a set has, each element with a blank before it, or `-` for a set without members.
///
/// # Errors
/// `Memory` only.
pub fn put_set(
    out: &mut String,
    typestate: Option<&Typestate>,
    set: &StateSet,
) -> Result<(), Memory>
    ensures { OnOk result (string_bytes out.new ≡ string_bytes out.old
        ++ set_text (typestate_or_end (option_map (λ t. t.now) typestate.entry)) (members set.now)) }
{
    if set.iter().next().is_none() {
        out.push_str(" -")?;
        return Ok(());
    }
    put_members(out, typestate, set)
}

impl<'a> Reporter<'a> {
    // Appends a name.
    pub(crate) fn put_name(&self, out: &mut String, name: Name) -> Result<(), Memory>
        ensures { OnOk result (string_bytes out.new ≡ string_bytes out.old ++ text_at (seen self.now).program name.0) }
    {
        out.push_str(name_text(self.core, name))?;
        Ok(())
    }

    // Appends what a table has.
    fn put_held(&self, out: &mut String, class: u32, key: TableKey) -> Result<(), Memory>
        ensures { OnOk result (string_bytes out.new ≡ string_bytes out.old ++ set_text (typestate_of (seen self.now).program class)
            ((seen self.now).elements key)) }
    {
        let typestate = typestate_of(self.core, class);
        match self.tables.find(key) {
            Some(set) => put_set(out, typestate, set),
            None => {
                out.push_str(" -")?;
                Ok(())
            }
        }
    }

    // Appends what a table of objects of a class has, up to the end of its line.
    pub(crate) fn put_table(
        &self,
        out: &mut String,
        class: u32,
        key: TableKey,
    ) -> Result<(), Memory>
        ensures { OnOk result (string_bytes out.new ≡ string_bytes out.old ++ table_text (seen self.now) class key) }
    {
        out.push_str(" =")?;
        self.put_held(out, class, key)?;
        out.push_str("\n")?;
        Ok(())
    }

    // Appends the line of a variable of this type. One that has no objects has none.
    pub(crate) fn put_variable(
        &self,
        out: &mut String,
        front: &str,
        name: Name,
        ty: CoreType,
        key: TableKey,
    ) -> Result<(), Memory>
        ensures { OnOk result (string_bytes out.new ≡ string_bytes out.old ++ variable_line (seen self.now) front.now name.0 ty key) }
    {
        let Some(class) = class_in(ty) else {
            return Ok(());
        };
        out.push_str(front)?;
        self.put_name(out, name)?;
        self.put_table(out, class, key)
    }

    // Appends the lines of fields.
    pub(crate) fn put_fields(
        &self,
        out: &mut String,
        front: &str,
        table: FieldTable,
        fields: &[CoreField],
    ) -> Result<(), Memory>
        ensures { OnOk result (string_bytes out.new ≡ string_bytes out.old ++ field_lines (seen self.now) front.now (key_in table)
            (map field_of fields.now)) }
    {
        for place in 0..fields.len() {
            let key = key_of(table, place)?;
            let field = &fields[place];
            self.put_variable(out, front, field.name, field.ty, key)?;
        }
        Ok(())
    }
}
