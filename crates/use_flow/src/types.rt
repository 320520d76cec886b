//! Types of values, where their form gives one.
//! By them a value that is dropped has its class, and a switch its constants.

ghost use Rattle.std.specs.Prelude.{◌≡◌, map, option_map, option_and_then, slice_get};
ghost use Rattle.jv_core.specs.Lookup.{variable_type};
ghost use Rattle.jv_core.specs.View.{expr_of};
ghost use Rattle.use_rules.specs.Keys.{method_in};
ghost use Rattle.use_flow.specs.inner.Followed.{seen};
ghost use Rattle.use_flow.specs.inner.Simple.{type_dropped, constants_of};

use crate::Context;
use crate::arguments::method_at;
use crate::scene::Scene;
use jv_core::{CoreExpr, CoreExprKind, CoreType, Var};
use mg_text::Name;

// The number of the method of a context.
pub(crate) fn method_in(context: Context) -> u32
    ensures { result ≡ method_in context }
{
    match context {
        Context::Plain { method } => method,
        Context::Protocol { method, .. } => method,
    }
}

impl<'a> Scene<'a> {
    // The type of a variable of the context's method.
    #[tactic(auto, using(crate::proofs::Scenes::scenes))]
    fn given_variable(&self, variable: Var) -> Option<CoreType>
        ensures { result ≡ option_and_then (λ m. variable_type (seen self.now).program m variable)
            (slice_get (seen self.now).program.methods (method_in (seen self.now).context)) }
    {
        let method = method_at(self.core, method_in(self.context))?;
        let scene = Scene {
            core: self.core,
            tables: self.tables,
            context: self.context,
            method,
        };
        scene.variable_type(variable)
    }

    // The type of what a method gives.
    #[tactic(auto, using(crate::proofs::Scenes::scenes))]
    pub(crate) fn result_type(&self, method: u32) -> Option<CoreType>
        ensures { result ≡ option_map (λ m. m.result) (slice_get (seen self.now).program.methods method) }
    {
        let method = method_at(self.core, method)?;
        Some(method.result)
    }

    // The type of a value that is dropped, where its form gives one.
    #[tactic(auto, using(crate::proofs::Tested::seen))]
    pub(crate) fn type_dropped(&self, value: &CoreExpr) -> Option<CoreType>
        ensures { result ≡ type_dropped (seen self.now) (expr_of value.now) }
    {
        match value.kind {
            CoreExprKind::New(class) => Some(CoreType::Object(class)),
            CoreExprKind::Var(variable) => self.given_variable(variable),
            CoreExprKind::Constant { of, .. } => Some(CoreType::Enum(of)),
            CoreExprKind::Protocol { method, .. } => self.result_type(method),
            CoreExprKind::Helper { method, .. } => self.result_type(method),
            CoreExprKind::Static { method, .. } => self.result_type(method),
            CoreExprKind::Int(_) | CoreExprKind::Truth(_) | CoreExprKind::Text(_) => None,
            CoreExprKind::Null | CoreExprKind::Neg(_) | CoreExprKind::Not(_) => None,
            CoreExprKind::Binary(_, _, _) | CoreExprKind::Session { .. } => None,
            CoreExprKind::Equals(_, _) | CoreExprKind::Concat(_, _) => None,
        }
    }

    // The constants of an enum's type.
    #[tactic(auto, using(crate::proofs::Scenes::scenes))]
    pub(crate) fn constants_of(&self, ty: Option<CoreType>) -> &[Name]
        ensures { map (λ n. n.0) result.now ≡ constants_of (seen self.now) ty }
    {
        let Some(ty) = ty else {
            return &[];
        };
        match ty {
            CoreType::Enum(number) => match self.core.enums().get(number as usize) {
                Some(found) => found.constants.as_slice(),
                None => &[],
            },
            CoreType::Void | CoreType::Int | CoreType::Boolean => &[],
            CoreType::Text | CoreType::Object(_) => &[],
        }
    }
}
