//! The label that a returned value is, where it is a constant of an enum.
//! By it the answer of a protocol method is known.

ghost use Rattle.std.specs.Prelude.{◌≡◌, option_map, Some};
ghost use Rattle.jv_core.specs.View.{expr_of};
ghost use Rattle.use_flow.specs.inner.Ending.{answer_of, constant_of};
ghost use Rattle.use_flow.specs.inner.Followed.{seen};

use crate::scene::Scene;
use jv_core::{CoreExpr, CoreExprKind, name_text};

impl<'a> Scene<'a> {
    // The name of the constant at a position of an enum.
    #[tactic(auto, using(crate::proofs::Scenes::scenes))]
    fn constant_at(&self, of: u32, position: u32) -> Option<&str>
        ensures { option_map (λ l. l.now) result ≡ constant_of (seen self.now) of position }
    {
        let found = self.core.enums().get(of as usize)?;
        let name = found.constants.as_slice().get(position as usize)?;
        Some(name_text(self.core, *name))
    }

    // The label that a value is, if it is a constant.
    #[tactic(auto, using(crate::proofs::Tested::seen))]
    pub(crate) fn label_of(&self, value: &CoreExpr) -> Option<&str>
        ensures { option_map (λ l. l.now) result ≡ answer_of (seen self.now) (Some (expr_of value.now)) }
    {
        match value.kind {
            CoreExprKind::Constant { of, position } => self.constant_at(of, position),
            CoreExprKind::Int(_) | CoreExprKind::Truth(_) | CoreExprKind::Text(_) => None,
            CoreExprKind::Null | CoreExprKind::Var(_) | CoreExprKind::New(_) => None,
            CoreExprKind::Neg(_) | CoreExprKind::Not(_) | CoreExprKind::Binary(_, _, _) => None,
            CoreExprKind::Protocol { .. } | CoreExprKind::Helper { .. } => None,
            CoreExprKind::Static { .. } | CoreExprKind::Session { .. } => None,
            CoreExprKind::Equals(_, _) | CoreExprKind::Concat(_, _) => None,
        }
    }
}
