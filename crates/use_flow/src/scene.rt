//! What is followed: a context of a program, with its method and the tables as they stand.
//! Names, types and widths of its variables are found here.

ghost use Rattle.std.specs.Prelude.{◌≡◌, map, option_map, option_and_then, slice_get, IfOk};
ghost use Rattle.jv_core.specs.View.{class_of, field_of, method_of};
ghost use Rattle.jv_core.specs.Lookup.{slot_type, field_type, variable_type};
ghost use Rattle.use_rules.specs.Keys.{class_in, contexts_in, typestate_of};
ghost use Rattle.use_rules.specs.Shapes.{elements_in};
ghost use Rattle.use_flow.specs.View.{contexts_of, reached_of};
ghost use Rattle.use_elements.specs.Mappings.{typestate_or_end, title_in};

use crate::fields::sum;
use crate::{Context, Tables};
use jv_core::{Core, CoreClass, CoreField, CoreMethod, CoreType, Var};
use mg_text::{Memory, Place};
use ts_tree::Typestate;
use use_elements::{Subject, Title};

/// A context that is followed, its method, and the tables.
#[derive(Drop)]
pub(crate) struct Scene<'a> {
    pub core: &'a Core,
    pub tables: &'a Tables,
    pub context: Context,
    pub method: &'a CoreMethod,
    // the contexts of the tables are those of the program
    ghost listed: { contexts_of tables.now ≡ contexts_in core.now (reached_of tables.now) },
}

/// The class of a type's objects, if it has any.
pub fn class_in(ty: CoreType) -> Option<u32>
    ensures { result ≡ class_in ty }
{
    match ty {
        CoreType::Object(class) => Some(class),
        _ => None,
    }
}

/// The class of this number, if there is one.
#[tactic(auto, using(crate::proofs::Scenes::scenes))]
pub fn class_at(core: &Core, class: u32) -> Option<&CoreClass>
    ensures { option_map (λ k. class_of k.now) result ≡ slice_get core.now.classes class }
{
    core.classes().get(class as usize)
}

/// The typestate that a class follows, if it follows one.
#[tactic(auto, using(crate::proofs::Scenes::scenes))]
pub fn typestate_of(core: &Core, class: u32) -> Option<&Typestate>
    ensures { typestate_or_end (option_map (λ t. t.now) result) ≡ typestate_of core.now class }
{
    let class = class_at(core, class)?;
    let number = class.typestate?;
    core.typestates().get(number as usize)
}

// How many elements a variable of a class may have.
pub(crate) fn elements_in(core: &Core, class: u32) -> usize
    ensures { result ≡ elements_in core.now class }
{
    match typestate_of(core, class) {
        Some(typestate) => 3 + typestate.states.len(),
        None => 3,
    }
}

// The type of a slot of a method.
#[tactic(auto, using(crate::proofs::Scenes::scenes))]
fn slot_type(method: &CoreMethod, slot: u32) -> Option<CoreType>
    ensures { result ≡ slot_type (method_of method.now) slot }
{
    match method.slots.as_slice().get(slot as usize) {
        Some(slot) => Some(slot.ty),
        None => None,
    }
}

// The class of the objects of a slot of a method.
pub(crate) fn slot_class(method: &CoreMethod, slot: u32) -> Option<u32>
    ensures { result ≡ option_and_then class_in (slot_type (method_of method.now) slot) }
{
    class_in(slot_type(method, slot)?)
}

impl<'a> Scene<'a> {
    ghost use Rattle.use_flow.specs.inner.Followed.{seen, own_fields, variable_at, variable_text, class_or_none, variable_class};
    ghost use Rattle.use_flow.specs.inner.Followed.{width_of, variable_width, behind_variables};

    // The class of the method.
    pub(crate) fn own_class(&self) -> Option<&CoreClass>
        ensures { option_map (λ k. class_of k.now) result ≡ slice_get (seen self.now).program.classes (seen self.now).method.class }
    {
        class_at(self.core, self.method.class)
    }

    // The own fields, if the method runs on an object.
    #[tactic(auto, using(crate::proofs::Scenes::scenes))]
    pub(crate) fn own_fields(&self) -> &[CoreField]
        ensures { map field_of result.now ≡ own_fields (seen self.now) }
    {
        match self.own_class() {
            Some(class) => class.fields.as_slice(),
            None => &[],
        }
    }

    // The width of the sets of a type.
    pub(crate) fn width_of(&self, ty: CoreType) -> usize
        ensures { result ≡ width_of (seen self.now) ty }
    {
        match class_in(ty) {
            Some(class) => elements_in(self.core, class),
            None => 0,
        }
    }

    // The type of an own field.
    #[tactic(auto, using(crate::proofs::Scenes::scenes))]
    fn field_type(&self, field: u32) -> Option<CoreType>
        ensures { result ≡ field_type (seen self.now).program (seen self.now).method.class field }
    {
        match self.own_class()?.fields.as_slice().get(field as usize) {
            Some(field) => Some(field.ty),
            None => None,
        }
    }

    // The type of a variable.
    pub(crate) fn variable_type(&self, variable: Var) -> Option<CoreType>
        ensures { result ≡ variable_type (seen self.now).program (seen self.now).method variable }
    {
        match variable {
            Var::Slot(slot) => slot_type(self.method, slot),
            Var::Field(field) => self.field_type(field),
        }
    }

    // Where the set of a variable stands: slots come first, and then the own fields.
    #[tactic(auto, using(crate::proofs::Scenes::scenes))]
    pub(crate) fn variable_at(&self, variable: Var) -> usize
        ensures { result ≡ variable_at (seen self.now) variable }
    {
        match variable {
            Var::Slot(slot) => slot as usize,
            Var::Field(field) => self.method.slots.len() + field as usize,
        }
    }

    // Where a value that is dropped stands: behind all variables.
    #[tactic(auto, using(crate::proofs::Scenes::scenes))]
    pub(crate) fn behind_variables(&self) -> Result<usize, Memory>
        ensures { IfOk result (λ n. n ≡ behind_variables (seen self.now)) }
    {
        sum(self.method.slots.len(), self.own_fields().len())
    }

    // The width of the sets of a variable.
    pub(crate) fn variable_width(&self, variable: Var) -> usize
        ensures { result ≡ variable_width (seen self.now) variable }
    {
        match self.variable_type(variable) {
            Some(ty) => self.width_of(ty),
            None => 0,
        }
    }

    // The class that a type names.
    pub(crate) fn class_or_none(&self, ty: Option<CoreType>) -> u32
        ensures { result ≡ class_or_none (seen self.now) ty }
    {
        let Some(ty) = ty else {
            return 0;
        };
        match class_in(ty) {
            Some(class) => class,
            None => 0,
        }
    }

    // The name of a slot.
    #[tactic(auto, using(crate::proofs::Scenes::scenes))]
    fn slot_title(&self, slot: u32) -> Title
        ensures { title_in (seen self.now).program.names result ≡ variable_text (seen self.now) (Var.Slot slot) }
    {
        match self.method.slots.as_slice().get(slot as usize) {
            Some(slot) => Title::Variable(slot.name),
            None => Title::Unnamed,
        }
    }

    // The name of an own field.
    #[tactic(auto, using(crate::proofs::Scenes::scenes))]
    fn field_title(&self, field: u32) -> Title
        ensures { title_in (seen self.now).program.names result ≡ variable_text (seen self.now) (Var.Field field) }
    {
        let Some(class) = self.own_class() else {
            return Title::Unnamed;
        };
        match class.fields.as_slice().get(field as usize) {
            Some(field) => Title::Variable(field.name),
            None => Title::Unnamed,
        }
    }

    // A variable as demands name it.
    pub(crate) fn subject(&self, place: Place, variable: Var) -> Subject
        ensures place { result.place ≡ place }
        ensures number { result.variable ≡ variable_at (seen self.now) variable }
        ensures name { title_in (seen self.now).program.names result.title ≡ variable_text (seen self.now) variable }
        ensures class { result.class ≡ variable_class (seen self.now) variable }
    {
        let title = match variable {
            Var::Slot(slot) => self.slot_title(slot),
            Var::Field(field) => self.field_title(field),
        };
        Subject {
            place,
            variable: self.variable_at(variable),
            title,
            class: self.class_or_none(self.variable_type(variable)),
        }
    }
}
