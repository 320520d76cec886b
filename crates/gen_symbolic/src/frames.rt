//! How many operands stand on the stack at most.

ghost use Rattle.std.specs.Prelude.{◌≡◌, IfOk, map, max, suc};
ghost use Rattle.jv_core.specs.View.{expr_of, exprs_of, stmt_of, stmts_of, group_of, groups_of};
ghost use Rattle.gen_rules.specs.Templates.{compared};
ghost use Rattle.gen_rules.specs.Frames.{binary_depths, depths, depth_of_arguments, depth_of_assignment, depth_of, depth_of_all};
ghost use Rattle.gen_rules.specs.Frames.{depth_of_groups, left_by, max_stack, depths_by_value, depths_by_jumps, two_depths};
ghost use Rattle.gen_rules.specs.Frames.{comparison_depths};
ghost use Rattle.gen_expressions.specs.Held.{method_in};
ghost use Rattle.gen_symbolic.specs.inner.Held.{depths_of};
ghost use Rattle.gen_expressions.specs.Drafting.{value, jump};
ghost use Rattle.gen_symbolic.specs.inner.Drafting.{groups};

use gen_expressions::{Coder, is_null};
use jv_core::{CoreExpr, CoreExprKind, CoreGroup, CoreOp, CoreStmt, CoreStmtKind, CoreType, Var};
use mg_text::Memory;

/// How many operands stand on the stack at most: for the value of an expression, and for a jump.
#[derive(Clone, Copy)]
pub(crate) struct Depths {
    value: u32,
    jump: u32,
}

// One more than a depth.
fn deeper(depth: u32) -> Result<u32, Memory>
    ensures { IfOk result (λ n. n ≡ suc depth) }
{
    let Some(deeper) = depth.checked_add(1) else {
        return Err(Memory);
    };
    Ok(deeper)
}

impl Depths {
    // A jump tests the value.
    fn by_value(value: u32) -> Depths
        ensures { depths_of result ≡ depths_by_value value }
    {
        Depths { value, jump: value }
    }

    // The value comes of a jump.
    fn by_jumps(jump: u32) -> Depths
        ensures { depths_of result ≡ depths_by_jumps jump }
    {
        Depths {
            value: jump.max(1),
            jump,
        }
    }

    // Two values, the second on the first.
    fn two(self, right: Depths) -> Result<u32, Memory>
        ensures { IfOk result (λ n. n ≡ two_depths (depths_of self) (depths_of right)) }
    {
        let right = deeper(right.value)?;
        Ok(self.value.max(right))
    }
}

// What a call leaves.
fn left_by(ty: Option<CoreType>) -> u32
    ensures { result ≡ left_by ty }
{
    let Some(ty) = ty else {
        return 1;
    };
    match ty {
        CoreType::Void => 0,
        CoreType::Int | CoreType::Boolean | CoreType::Text => 1,
        CoreType::Object(_) | CoreType::Enum(_) => 1,
    }
}

// Where a variable is assigned whose value has this depth.
fn assigned(coder: &Coder<'_>, target: Var, value: u32) -> Result<u32, Memory>
    ensures { IfOk result (λ n. n ≡ depth_of_assignment coder.now.core.now (method_in coder.now) target value) }
{
    match target {
        Var::Slot(_) => Ok(value),
        Var::Field(_) => deeper(value),
    }
}

#[tactic(auto, using(gen_expressions::proofs::Seen::seen))]
#[cycle(depths)]
fn expression_depths(coder: &Coder<'_>, expr: &CoreExpr) -> Result<Depths, Memory>
    ensures { IfOk result (λ d. depths_of d ≡ depths coder.now.core.now (method_in coder.now) (expr_of expr.now)) }
{
    match &expr.kind {
        CoreExprKind::Truth(_) => Ok(Depths { value: 1, jump: 0 }),
        CoreExprKind::Neg(inner) => {
            let inner = expression_depths(coder, inner)?;
            Ok(Depths::by_value(inner.value))
        }
        CoreExprKind::Not(inner) => {
            let inner = expression_depths(coder, inner)?;
            Ok(Depths::by_jumps(inner.jump))
        }
        CoreExprKind::Binary(op, left, right) => binary_depths(coder, *op, left, right),
        CoreExprKind::Protocol { args, .. } => depths_on(coder, args.as_slice()),
        CoreExprKind::Helper { args, .. } => depths_on(coder, args.as_slice()),
        CoreExprKind::Static { args, .. } => {
            depths_with(coder, left_by(coder.type_of(expr)), args.as_slice())
        }
        CoreExprKind::Equals(left, right) => depths_of_two(coder, left, right),
        CoreExprKind::Concat(left, right) => depths_of_two(coder, left, right),
        CoreExprKind::Session { args, .. } => {
            depths_with(coder, left_by(coder.type_of(expr)), args.as_slice())
        }
        CoreExprKind::New(_) => Ok(Depths::by_value(2)),
        CoreExprKind::Int(_) | CoreExprKind::Text(_) => Ok(Depths::by_value(1)),
        CoreExprKind::Null | CoreExprKind::Var(_) => Ok(Depths::by_value(1)),
        CoreExprKind::Constant { .. } => Ok(Depths::by_value(1)),
    }
}

// Arguments on an object.
#[cycle(depths)]
fn depths_on(coder: &Coder<'_>, args: &[CoreExpr]) -> Result<Depths, Memory>
    ensures { IfOk result (λ d. depths_of d ≡ depths_by_value
        (suc (depth_of_arguments coder.now.core.now (method_in coder.now) (exprs_of (map expr_of args.now))))) }
{
    let depth = arguments_depth(coder, args)?;
    let depth = deeper(depth)?;
    Ok(Depths::by_value(depth))
}

// Arguments of a call that needs no object and leaves so much.
#[cycle(depths)]
fn depths_with(coder: &Coder<'_>, left: u32, args: &[CoreExpr]) -> Result<Depths, Memory>
    ensures { IfOk result (λ d. depths_of d ≡ depths_by_value
        (max (depth_of_arguments coder.now.core.now (method_in coder.now) (exprs_of (map expr_of args.now))) left)) }
{
    let depth = arguments_depth(coder, args)?;
    Ok(Depths::by_value(depth.max(left)))
}

// Two values and an instruction.
#[cycle(depths)]
fn depths_of_two(coder: &Coder<'_>, left: &CoreExpr, right: &CoreExpr) -> Result<Depths, Memory>
    ensures { IfOk result (λ d. depths_of d ≡ depths_by_value
        (two_depths (depths coder.now.core.now (method_in coder.now) (expr_of left.now))
        (depths coder.now.core.now (method_in coder.now) (expr_of right.now)))) }
{
    let left = expression_depths(coder, left)?;
    let right = expression_depths(coder, right)?;
    let depth = left.two(right)?;
    Ok(Depths::by_value(depth))
}

#[cycle(depths)]
fn binary_depths(
    coder: &Coder<'_>,
    op: CoreOp,
    left: &CoreExpr,
    right: &CoreExpr,
) -> Result<Depths, Memory>
    ensures { IfOk result (λ d. depths_of d ≡ binary_depths op (compared (expr_of left.now) (expr_of right.now))
        (depths coder.now.core.now (method_in coder.now) (expr_of left.now))
        (depths coder.now.core.now (method_in coder.now) (expr_of right.now))) }
{
    match op {
        CoreOp::Or | CoreOp::And => {
            let left = expression_depths(coder, left)?;
            let right = expression_depths(coder, right)?;
            Ok(Depths::by_jumps(left.jump.max(right.jump)))
        }
        CoreOp::Add | CoreOp::Sub | CoreOp::Mul | CoreOp::Div | CoreOp::Rem => {
            depths_of_two(coder, left, right)
        }
        CoreOp::Eq | CoreOp::Ne | CoreOp::Lt | CoreOp::Le | CoreOp::Gt | CoreOp::Ge => {
            comparison_depths(coder, left, right)
        }
    }
}

#[tactic(auto, using(crate::proofs::Framing::comparisons))]
#[cycle(depths)]
fn comparison_depths(coder: &Coder<'_>, left: &CoreExpr, right: &CoreExpr) -> Result<Depths, Memory>
    ensures { IfOk result (λ d. depths_of d ≡ comparison_depths (compared (expr_of left.now) (expr_of right.now))
        (depths coder.now.core.now (method_in coder.now) (expr_of left.now))
        (depths coder.now.core.now (method_in coder.now) (expr_of right.now))) }
{
    if is_null(right) {
        let left = expression_depths(coder, left)?;
        return Ok(Depths::by_jumps(left.value));
    }
    if is_null(left) {
        let right = expression_depths(coder, right)?;
        return Ok(Depths::by_jumps(right.value));
    }
    let left = expression_depths(coder, left)?;
    let right = expression_depths(coder, right)?;
    let depth = left.two(right)?;
    Ok(Depths::by_jumps(depth))
}

// Arguments, each on those before.
#[tactic(auto, using(crate::proofs::Framing::argument_depths))]
#[cycle(depths)]
fn arguments_depth(coder: &Coder<'_>, args: &[CoreExpr]) -> Result<u32, Memory>
    ensures { IfOk result (λ n. n ≡ depth_of_arguments coder.now.core.now (method_in coder.now) (exprs_of (map expr_of args.now))) }
{
    let mut depth = 0;
    let mut left = args.len();
    while left > 0 {
        left -= 1;
        let first = expression_depths(coder, &args[left])?;
        depth = first.value.max(deeper(depth)?);
    }
    Ok(depth)
}

#[tactic(auto, using(gen_expressions::proofs::Seen::seen))]
#[cycle(statement_depths)]
fn depth_of(coder: &Coder<'_>, stmt: &CoreStmt) -> Result<u32, Memory>
    ensures { IfOk result (λ n. n ≡ depth_of coder.now.core.now (method_in coder.now) (stmt_of stmt.now)) }
{
    match &stmt.kind {
        CoreStmtKind::Block(body, _) => depth_of_all(coder, body.as_slice()),
        CoreStmtKind::Empty => Ok(0),
        CoreStmtKind::Local(_, value) => value_depth(coder, value),
        CoreStmtKind::Assign(target, value) => {
            let depth = value_depth(coder, value)?;
            assigned(coder, target.var, depth)
        }
        CoreStmtKind::If(condition, inner, otherwise) => {
            let depth = guarded_depth(coder, condition, inner)?;
            match otherwise {
                None => Ok(depth),
                Some(otherwise) => {
                    let otherwise = depth_of(coder, otherwise)?;
                    Ok(depth.max(otherwise))
                }
            }
        }
        CoreStmtKind::While(_, condition, inner) => guarded_depth(coder, condition, inner),
        CoreStmtKind::Do(_, inner, condition) => guarded_depth(coder, condition, inner),
        CoreStmtKind::Switch(value, groups, _) => {
            let depth = value_depth(coder, value)?;
            let groups = depth_of_groups(coder, groups.as_slice())?;
            Ok(depth.max(groups))
        }
        CoreStmtKind::Break(_) | CoreStmtKind::Continue(_) => Ok(0),
        CoreStmtKind::Return(value) => match value {
            None => Ok(0),
            Some(value) => value_depth(coder, value),
        },
        CoreStmtKind::Print(value) => {
            let depth = value_depth(coder, value)?;
            deeper(depth)
        }
        CoreStmtKind::Eval(value) => value_depth(coder, value),
    }
}

// The value of an expression.
fn value_depth(coder: &Coder<'_>, expr: &CoreExpr) -> Result<u32, Memory>
    ensures { IfOk result (λ n. n ≡ (depths coder.now.core.now (method_in coder.now) (expr_of expr.now)).value) }
{
    let depths = expression_depths(coder, expr)?;
    Ok(depths.value)
}

// A condition and a statement.
#[cycle(statement_depths)]
fn guarded_depth(coder: &Coder<'_>, condition: &CoreExpr, inner: &CoreStmt) -> Result<u32, Memory>
    ensures { IfOk result (λ n. n ≡ max (depths coder.now.core.now (method_in coder.now) (expr_of condition.now)).jump
        (depth_of coder.now.core.now (method_in coder.now) (stmt_of inner.now))) }
{
    let condition = expression_depths(coder, condition)?;
    let inner = depth_of(coder, inner)?;
    Ok(condition.jump.max(inner))
}

#[tactic(auto, using(crate::proofs::Framing::statement_depths))]
#[cycle(statement_depths)]
fn depth_of_all(coder: &Coder<'_>, stmts: &[CoreStmt]) -> Result<u32, Memory>
    ensures { IfOk result (λ n. n ≡ depth_of_all coder.now.core.now (method_in coder.now) (stmts_of (map stmt_of stmts.now))) }
{
    let mut depth = 0;
    for stmt in stmts {
        let next = depth_of(coder, stmt)?;
        depth = next.max(depth);
    }
    Ok(depth)
}

#[tactic(auto, using(crate::proofs::Framing::statement_depths))]
#[cycle(statement_depths)]
fn depth_of_groups(coder: &Coder<'_>, groups: &[CoreGroup]) -> Result<u32, Memory>
    ensures { IfOk result (λ n. n ≡ depth_of_groups coder.now.core.now (method_in coder.now) (groups_of (map group_of groups.now))) }
{
    let mut depth = 0;
    for group in groups {
        let next = depth_of_all(coder, group.body.as_slice())?;
        depth = next.max(depth);
    }
    Ok(depth)
}

/// How many operands stand on the stack at most.
pub(crate) fn max_stack(coder: &Coder<'_>) -> Result<u32, Memory>
    ensures { IfOk result (λ n. n ≡ max_stack coder.now.core.now (method_in coder.now)) }
{
    let body = depth_of_all(coder, coder.method.body.as_slice())?;
    let end = match coder.method.result {
        CoreType::Void => 0,
        CoreType::Int | CoreType::Boolean | CoreType::Text => 1,
        CoreType::Object(_) | CoreType::Enum(_) => 1,
    };
    Ok(body.max(end))
}
