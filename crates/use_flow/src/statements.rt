//! Statements: each is followed once, in the order of the text.
//! What isn't reached flows nowhere, and what jumps is kept by where it leads.

ghost use Rattle.std.specs.Prelude.{◌≡◌, ◌++◌, Some, None, map, reverse, IfOk};
ghost use Rattle.jv_core.specs.View.{stmt_of, stmts_of, group_of, groups_of, expr_of};
ghost use Rattle.use_flow.specs.View.{log_of};
ghost use Rattle.use_rules.specs.Flow.{declared_here};
ghost use Rattle.use_flow.specs.inner.Followed.{seen};
ghost use Rattle.use_flow.specs.inner.Simple.{exit};
ghost use Rattle.use_flow.specs.inner.Stepping.{Follows, Turned, scope_of, step, steps, local_in, declared_by, item, while_flow, do_flow};
ghost use Rattle.use_flow.specs.inner.Switching.{switch_flow, group_flow, follow, rest_of, past_of, nows_of};

use crate::course::Course;
use crate::jumps::Lead;
use crate::listed::local_in;
use crate::scene::Scene;
use crate::switches::Sprouts;
use jv_core::{CoreExpr, CoreGroup, CoreStmt, CoreStmtKind};
use mg_text::{Memory, Place};
use std::alloc::Global;
use use_elements::{Sets, meet};

impl<'a> Scene<'a> {
    // Follows a statement. `outer` has the slots in scope around the innermost switch.
    #[cycle(statements)]
    fn step(
        &self,
        alloc: Global,
        statement: &CoreStmt,
        outer: &[u32],
        sets: Sets,
        course: &mut Course,
    ) -> Result<Option<Sets>, Memory>
        ensures { IfOk result (λ n. Follows (step (seen self.now) (scope_of course.old) (reverse outer.now) (stmt_of statement.now)
            (Some sets) (log_of course.old.log)) course.old.scope.items course.old.jumps n course.new) }
    {
        let place = statement.place;
        match &statement.kind {
            CoreStmtKind::Block(body, end) => {
                self.step_list(alloc, body.as_slice(), *end, outer, Some(sets), course)
            }
            CoreStmtKind::Empty => Ok(Some(sets)),
            CoreStmtKind::Local(slot, value) => {
                let log = &mut course.log;
                self.step_local(alloc, place, *slot, value, sets, log)
            }
            CoreStmtKind::Assign(target, value) => {
                self.step_assign(alloc, *target, value, sets, &mut course.log)
            }
            CoreStmtKind::If(condition, then, otherwise) => {
                let (holds, fails) = self.eval_ways(alloc, condition, Some(sets), &mut course.log)?;
                let now = self.step_now(alloc, then, outer, holds, course)?;
                match otherwise {
                    Some(other) => {
                        let other_now = self.step_now(alloc, other, outer, fails, course)?;
                        meet(now, other_now)
                    }
                    None => meet(now, fails),
                }
            }
            CoreStmtKind::While(number, condition, body) => {
                self.step_while(alloc, body, *number, condition, outer, sets, course)
            }
            CoreStmtKind::Do(number, body, condition) => {
                self.step_do(alloc, body, *number, condition, outer, sets, course)
            }
            CoreStmtKind::Switch(value, groups, _) => {
                let groups = groups.as_slice();
                let sprouts = self.choose(alloc, value, groups, sets, &mut course.log)?;
                self.step_switch(alloc, groups, sprouts, course)
            }
            CoreStmtKind::Break(number) => match number {
                Some(number) => {
                    let lead = Lead::BehindLoop(*number);
                    self.jump_loop(alloc, place, lead, *number, sets, course)
                }
                None => self.jump(alloc, place, Lead::BehindSwitch, outer, sets, course),
            },
            CoreStmtKind::Continue(number) => {
                let lead = Lead::GoesOn(*number);
                self.jump_loop(alloc, place, lead, *number, sets, course)
            }
            CoreStmtKind::Return(value) => match value {
                Some(value) => {
                    let scope = course.scope.as_slice();
                    self.step_return(alloc, place, value, scope, sets, &mut course.log)?;
                    Ok(None)
                }
                None => {
                    let scope = course.scope.as_slice();
                    self.step_leave(alloc, place, scope, sets, &mut course.log)?;
                    Ok(None)
                }
            },
            CoreStmtKind::Print(value) => { self.step_print(alloc, value, sets, &mut course.log) }
            CoreStmtKind::Eval(value) => {
                self.step_dropped(alloc, place, value, sets, &mut course.log)
            }
        }
    }

    // A statement that may not be reached.
    #[cycle(statements)]
    fn step_now(
        &self,
        alloc: Global,
        statement: &CoreStmt,
        outer: &[u32],
        now: Option<Sets>,
        course: &mut Course,
    ) -> Result<Option<Sets>, Memory>
        ensures { IfOk result (λ n. Follows (step (seen self.now) (scope_of course.old) (reverse outer.now) (stmt_of statement.now) now
            (log_of course.old.log)) course.old.scope.items course.old.jumps n course.new) }
    {
        match now {
            Some(sets) => self.step(alloc, statement, outer, sets, course),
            None => Ok(None),
        }
    }

    // The body of a loop: what is known where its turn ends, and what has jumped behind the loop. What
    // jumps to a loop of this number from around it is set aside while the body is followed.
    #[cycle(statements)]
    fn step_body(
        &self,
        alloc: Global,
        body: &CoreStmt,
        number: u32,
        outer: &[u32],
        now: Option<Sets>,
        course: &mut Course,
    ) -> Result<(Option<Sets>, Option<Sets>), Memory>
        ensures { IfOk result (λ r. Turned number
            (step (seen self.now) (scope_of course.old) (reverse outer.now) (stmt_of body.now) now (log_of course.old.log))
            course.old.scope.items course.old.jumps r.0 r.1 course.new) }
    {
        let around = course.jumps.set_aside(number);
        let now = self.step_now(alloc, body, outer, now, course)?;
        let inside = course.jumps.set_aside(number);
        course.jumps.put_back(number, around)?;
        let end = meet(now, inside.going_on)?;
        Ok((end, inside.behind))
    }

    // A loop whose condition comes first.
    #[cycle(statements)]
    fn step_while(
        &self,
        alloc: Global,
        body: &CoreStmt,
        number: u32,
        condition: &CoreExpr,
        outer: &[u32],
        sets: Sets,
        course: &mut Course,
    ) -> Result<Option<Sets>, Memory>
        ensures { IfOk result (λ n. Follows
            (while_flow (seen self.now) (scope_of course.old) (reverse outer.now) number (expr_of condition.now) (stmt_of body.now) sets
            (log_of course.old.log)) course.old.scope.items course.old.jumps n course.new) }
    {
        let mut sets = sets;
        self.send_heads(alloc, number, &sets, &mut course.log)?;
        self.at_head(alloc, number, &mut sets)?;
        let (holds, fails) = self.eval_ways(alloc, condition, Some(sets), &mut course.log)?;
        let (end, behind) = self.step_body(alloc, body, number, outer, holds, course)?;
        self.send_end(alloc, number, &end, &mut course.log)?;
        meet(fails, behind)
    }

    // A loop whose body comes first.
    #[cycle(statements)]
    fn step_do(
        &self,
        alloc: Global,
        body: &CoreStmt,
        number: u32,
        condition: &CoreExpr,
        outer: &[u32],
        sets: Sets,
        course: &mut Course,
    ) -> Result<Option<Sets>, Memory>
        ensures { IfOk result (λ n. Follows (do_flow (seen self.now) (scope_of course.old) (reverse outer.now) number (stmt_of body.now)
            (expr_of condition.now) sets (log_of course.old.log)) course.old.scope.items course.old.jumps n course.new) }
    {
        let mut sets = sets;
        self.send_heads(alloc, number, &sets, &mut course.log)?;
        self.at_head(alloc, number, &mut sets)?;
        let (end, behind) = self.step_body(alloc, body, number, outer, Some(sets), course)?;
        let (again, fails) = self.eval_ways(alloc, condition, end, &mut course.log)?;
        self.send_end(alloc, number, &again, &mut course.log)?;
        meet(fails, behind)
    }

    // Statements one after another, at whose end what they declare goes out of scope.
    #[cycle(statements)]
    fn step_list(
        &self,
        alloc: Global,
        body: &[CoreStmt],
        end: Place,
        outer: &[u32],
        now: Option<Sets>,
        course: &mut Course,
    ) -> Result<Option<Sets>, Memory>
        ensures { IfOk result (λ n. Follows
            (exit (seen self.now) end (declared_here (stmts_of (map stmt_of body.now)))
            (steps (seen self.now) (scope_of course.old) (reverse outer.now) (stmts_of (map stmt_of body.now)) now (log_of course.old.log)))
            course.old.scope.items course.old.jumps n course.new) }
    {
        let depth = course.scope.len();
        let now = self.steps(alloc, body, outer, now, course)?;
        self.end_scope(alloc, end, depth, now, course)
    }

    // Statements one after another, up to the end of their list: what they declare is still in scope.
    #[cycle(statements)]
    pub(crate) fn steps(
        &self,
        alloc: Global,
        body: &[CoreStmt],
        outer: &[u32],
        now: Option<Sets>,
        course: &mut Course,
    ) -> Result<Option<Sets>, Memory>
        ensures { IfOk result (λ n. Follows
            (steps (seen self.now) (scope_of course.old) (reverse outer.now) (stmts_of (map stmt_of body.now)) now (log_of course.old.log))
            (course.old.scope.items ++ declared_here (stmts_of (map stmt_of body.now))) course.old.jumps n course.new) }
    {
        let mut now = now;
        for statement in body {
            now = self.step_item(alloc, statement, outer, now, course)?;
        }
        Ok(now)
    }

    // A statement of a list: a declaration stays in scope behind it.
    #[cycle(statements)]
    fn step_item(
        &self,
        alloc: Global,
        statement: &CoreStmt,
        outer: &[u32],
        now: Option<Sets>,
        course: &mut Course,
    ) -> Result<Option<Sets>, Memory>
        ensures { IfOk result (λ n. Follows
            (item (seen self.now) (scope_of course.old) (reverse outer.now) (local_in (stmt_of statement.now)) (stmt_of statement.now) now
            (log_of course.old.log)) (course.old.scope.items ++ declared_by (local_in (stmt_of statement.now))) course.old.jumps n
            course.new) }
    {
        match local_in(statement) {
            Some(declared) => {
                let slot = declared.slot;
                let log = &mut course.log;
                let behind = self.declare(alloc, slot, declared.value, now, log)?;
                course.scope.push(slot)?;
                Ok(behind)
            }
            None => self.step_now(alloc, statement, outer, now, course),
        }
    }

    // The groups of a switch, one after another. Each starts with what its labels lead to it.
    #[cycle(statements)]
    fn step_switch(
        &self,
        alloc: Global,
        groups: &[CoreGroup],
        sprouts: Sprouts,
        course: &mut Course,
    ) -> Result<Option<Sets>, Memory>
        ensures { IfOk result (λ n. Follows (switch_flow (seen self.now) (scope_of course.old) (rest_of sprouts) (past_of sprouts)
            (nows_of sprouts) (groups_of (map group_of groups.now)) (log_of course.old.log)) course.old.scope.items course.old.jumps n
            course.new) }
    {
        let past = sprouts.past(alloc)?;
        let around = course.jumps.take(Lead::BehindSwitch);
        let now = self.step_groups(alloc, groups, &sprouts, course)?;
        drop(sprouts);
        let inside = course.jumps.take(Lead::BehindSwitch);
        course.jumps.put(Lead::BehindSwitch, around)?;
        let end = meet(now, past)?;
        meet(end, inside)
    }

    // The groups of a switch, each behind the one before.
    #[cycle(statements)]
    fn step_groups(
        &self,
        alloc: Global,
        groups: &[CoreGroup],
        sprouts: &Sprouts,
        course: &mut Course,
    ) -> Result<Option<Sets>, Memory>
        ensures { IfOk result (λ n. Follows (follow (seen self.now) (scope_of course.old) (rest_of sprouts.now) (nows_of sprouts.now)
            (groups_of (map group_of groups.now)) None (log_of course.old.log)) course.old.scope.items course.old.jumps n course.new) }
    {
        let outer = Vec::from_slice(alloc, course.scope.as_slice())?;
        let mut now = None;
        for group in groups {
            now = self.step_group(alloc, group, sprouts, outer.as_slice(), now, course)?;
        }
        Ok(now)
    }

    // A group, behind the one before.
    #[cycle(statements)]
    fn step_group(
        &self,
        alloc: Global,
        group: &CoreGroup,
        sprouts: &Sprouts,
        outer: &[u32],
        before: Option<Sets>,
        course: &mut Course,
    ) -> Result<Option<Sets>, Memory>
        ensures { IfOk result (λ n. Follows (group_flow (seen self.now) (scope_of course.old) (reverse outer.now) (rest_of sprouts.now)
            (nows_of sprouts.now) (group_of group.now) before (log_of course.old.log)) course.old.scope.items course.old.jumps n
            course.new) }
    {
        let entry = sprouts.entry(alloc, group.labels.as_slice())?;
        let start = meet(entry, before)?;
        let body = group.body.as_slice();
        self.step_list(alloc, body, group.end, outer, start, course)
    }
}
