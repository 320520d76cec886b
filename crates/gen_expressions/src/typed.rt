//! The types of expressions, by their forms alone.

ghost use Rattle.std.specs.Prelude.{◌≡◌, max};
ghost use Rattle.jv_core.specs.View.{expr_of};
ghost use Rattle.jv_core.specs.Meaning.{result_of};
ghost use Rattle.gen_rules.specs.Typed.{is_text, joins, type_of, operator_type};
ghost use Rattle.gen_rules.specs.Cases.{constants_of};
ghost use Rattle.gen_expressions.specs.Held.{method_in, is_null};
ghost use Rattle.jv_tree.specs.declared.tree.Op.TheVariants as ops;

use crate::coder::Coder;
use jv_core::{CoreExpr, CoreExprKind, CoreOp, CoreType};

/// Whether an expression is `null`.
#[tactic(auto, using(crate::proofs::Seen::seen))]
pub fn is_null(expr: &CoreExpr) -> bool
    ensures { result ≡ is_null (expr_of expr.now) }
{
    match expr.kind {
        CoreExprKind::Null => true,
        CoreExprKind::Int(_) | CoreExprKind::Truth(_) | CoreExprKind::Text(_) => false,
        CoreExprKind::Var(_) | CoreExprKind::Constant { .. } | CoreExprKind::New(_) => false,
        CoreExprKind::Neg(_) | CoreExprKind::Not(_) | CoreExprKind::Binary(_, _, _) => false,
        CoreExprKind::Protocol { .. } | CoreExprKind::Helper { .. } => false,
        CoreExprKind::Static { .. } | CoreExprKind::Session { .. } => false,
        CoreExprKind::Equals(_, _) | CoreExprKind::Concat(_, _) => false,
    }
}

// Whether a type is that of texts.
fn is_text(ty: Option<CoreType>) -> bool
    ensures { result ≡ is_text ty }
{
    let Some(ty) = ty else {
        return false;
    };
    match ty {
        CoreType::Text => true,
        CoreType::Void | CoreType::Int | CoreType::Boolean => false,
        CoreType::Object(_) | CoreType::Enum(_) => false,
    }
}

/// Whether `+` of operands of these types joins texts.
pub(crate) fn joins(left: Option<CoreType>, right: Option<CoreType>) -> bool
    ensures { result ≡ joins ops.Add left right }
{
    is_text(left) || is_text(right)
}

impl<'a> Coder<'a> {
    // What a method gives.
    #[tactic(auto, using(crate::proofs::Seen::found))]
    fn result_of(&self, method: u32) -> Option<CoreType>
        ensures { result ≡ result_of self.now.core.now method }
    {
        match self.core.methods().get(method as usize) {
            Some(method) => Some(method.result),
            None => None,
        }
    }

    /// The type of an expression; `null` has none.
    #[tactic(auto, using(crate::proofs::Seen::seen))]
    #[cycle(types)]
    pub fn type_of(&self, expr: &CoreExpr) -> Option<CoreType>
        ensures { result ≡ type_of self.now.core.now (method_in self.now) (expr_of expr.now) }
    {
        match &expr.kind {
            CoreExprKind::Int(_) => Some(CoreType::Int),
            CoreExprKind::Truth(_) => Some(CoreType::Boolean),
            CoreExprKind::Text(_) => Some(CoreType::Text),
            CoreExprKind::Null => None,
            CoreExprKind::Var(variable) => self.variable_type(*variable),
            CoreExprKind::Constant { of, .. } => Some(CoreType::Enum(*of)),
            CoreExprKind::Neg(_) => Some(CoreType::Int),
            CoreExprKind::Not(_) => Some(CoreType::Boolean),
            CoreExprKind::Binary(op, left, right) => Some(self.binary_type(*op, left, right)),
            CoreExprKind::Protocol { method, .. } => self.result_of(*method),
            CoreExprKind::Helper { method, .. } => self.result_of(*method),
            CoreExprKind::Static { method, .. } => self.result_of(*method),
            CoreExprKind::Equals(_, _) => Some(CoreType::Boolean),
            CoreExprKind::Concat(_, _) => Some(CoreType::Text),
            CoreExprKind::Session { call, .. } => Some(CoreType::plain(call.method().result)),
            CoreExprKind::New(class) => Some(CoreType::Object(*class)),
        }
    }

    // The type of an expression with two operands. Only `+` looks at theirs.
    #[cycle(types)]
    fn binary_type(&self, op: CoreOp, left: &CoreExpr, right: &CoreExpr) -> CoreType
        ensures { result ≡ operator_type op (joins op (type_of self.now.core.now (method_in self.now) (expr_of left.now))
            (type_of self.now.core.now (method_in self.now) (expr_of right.now))) }
    {
        match op {
            CoreOp::Add => {
                if joins(self.type_of(left), self.type_of(right)) {
                    return CoreType::Text;
                }
                CoreType::Int
            }
            CoreOp::Sub | CoreOp::Mul | CoreOp::Div | CoreOp::Rem => CoreType::Int,
            CoreOp::Eq | CoreOp::Ne | CoreOp::Lt | CoreOp::Le => CoreType::Boolean,
            CoreOp::Gt | CoreOp::Ge | CoreOp::And | CoreOp::Or => CoreType::Boolean,
        }
    }

    /// How many constants a switch over an expression tells apart: one at least.
    pub fn constants(&self, expr: &CoreExpr) -> usize
        ensures { result ≡ max 1 (constants_of self.now.core.now
            (type_of self.now.core.now (method_in self.now) (expr_of expr.now))) }
    {
        let Some(ty) = self.type_of(expr) else {
            return 1;
        };
        let CoreType::Enum(number) = ty else {
            return 1;
        };
        match self.core.enums().get(number as usize) {
            Some(kind) => kind.constants.len().max(1),
            None => 1,
        }
    }
}
