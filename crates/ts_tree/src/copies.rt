//! Equal parts of a typestate, made anew.

ghost use Rattle.std.specs.Prelude.{◌≡◌, IfOk, map};
ghost use Rattle.ts_tree.specs.View.{target_of, method_of, state_of};

use crate::{Branch, Method, State, Target, TypeName};
use mg_text::{List, Memory};
use std::alloc::Global;

impl TypeName {
    /// An equal type.
    ///
    /// # Errors
    /// `Memory` only.
    pub fn copy(&self) -> Result<TypeName, Memory>
        ensures { IfOk result (λ t. t ≡ self.now) }
    {
        match self {
            TypeName::Void => Ok(TypeName::Void),
            TypeName::Int => Ok(TypeName::Int),
            TypeName::Boolean => Ok(TypeName::Boolean),
            TypeName::Text => Ok(TypeName::Text),
            TypeName::Named(name) => {
                let name = name.copy()?;
                Ok(TypeName::Named(name))
            }
        }
    }
}

fn copy_types(alloc: Global, types: &[TypeName]) -> Result<List<TypeName>, Memory>
    ensures { IfOk result (λ l. l.items ≡ types.now) }
{
    let mut copies = List::new(alloc);
    for item in types {
        let copy = item.copy()?;
        copies.push(copy)?;
    }
    Ok(copies)
}

fn copy_branches(alloc: Global, branches: &[Branch]) -> Result<List<Branch>, Memory>
    ensures { IfOk result (λ l. l.items ≡ branches.now) }
{
    let mut copies = List::new(alloc);
    for branch in branches {
        let label = branch.label.copy()?;
        copies.push(Branch {
            label,
            to: branch.to,
        })?;
    }
    Ok(copies)
}

fn copy_target(alloc: Global, target: &Target) -> Result<Target, Memory>
    ensures { IfOk result (λ t. target_of t ≡ target_of target.now) }
{
    match target {
        Target::One(to) => Ok(Target::One(*to)),
        Target::ByAnswer(branches) => {
            let copies = copy_branches(alloc, branches.as_slice())?;
            Ok(Target::ByAnswer(copies))
        }
    }
}

fn copy_method(alloc: Global, method: &Method) -> Result<Method, Memory>
    ensures { IfOk result (λ m. method_of m ≡ method_of method.now) }
{
    let type_name = method.result.copy()?;
    let name = method.name.copy()?;
    let params = copy_types(alloc, method.params.as_slice())?;
    let target = copy_target(alloc, &method.target)?;
    Ok(Method {
        result: type_name,
        name,
        params,
        target,
    })
}

fn copy_methods(alloc: Global, methods: &[Method]) -> Result<List<Method>, Memory>
    ensures { IfOk result (λ l. map method_of l.items ≡ map method_of methods.now) }
{
    let mut copies = List::new(alloc);
    for method in methods {
        let copy = copy_method(alloc, method)?;
        copies.push(copy)?;
    }
    Ok(copies)
}

fn copy_state(alloc: Global, state: &State) -> Result<State, Memory>
    ensures { IfOk result (λ s. state_of s ≡ state_of state.now) }
{
    let name = state.name.copy()?;
    let methods = copy_methods(alloc, state.methods.as_slice())?;
    Ok(State {
        name,
        methods,
        drops: state.drops,
    })
}

// Equal states.
pub(crate) fn copy_states(alloc: Global, states: &[State]) -> Result<List<State>, Memory>
    ensures { IfOk result (λ l. map state_of l.items ≡ map state_of states.now) }
{
    let mut copies = List::new(alloc);
    for state in states {
        let copy = copy_state(alloc, state)?;
        copies.push(copy)?;
    }
    Ok(copies)
}
