//! What a walk finds for a role: of a list of statements, and of the branches of a choice.

ghost use Rattle.std.specs.Prelude.{◌≡◌, [], ◌∷◌, IfOk, OnOk, Some};
ghost use Rattle.scr_tree.specs.View.{statements, bodies};
ghost use Rattle.scr_tree.specs.Tree.{NoBranch, Branch};
ghost use Rattle.scr_global.specs.Texts.{behind};
ghost use Rattle.scr_global.specs.Projecting.{both, mapped};
ghost use Rattle.scr_global_tree.proofs.Appends.{beside};
ghost use Rattle.scr_project.specs.inner.Walk.{nothing, no_branch, followed, followed_each, as_branch};
ghost use Rattle.scr_project.specs.inner.View.{says_of, say_of, found_of, each_of};

use mg_text::{List, Memory, Place};
use scr_tree::Statement;
use std::alloc::Global;

/// What is found of a list of statements.
#[derive(Drop)]
pub(crate) struct Part {
    /// Whether a message names the role.
    pub named: bool,
    /// The most recs around that a `continue` leaves or begins again.
    pub reach: u32,
    /// The first choice that can't be merged, though each of its branches is projected.
    pub first: Option<Place>,
    /// What the role does; none where some choice that matters can't be merged.
    pub says: Option<List<Statement>>,
}

/// What is found of the branches of a choice.
#[derive(Drop)]
pub(crate) struct Each {
    pub named: bool,
    pub reach: u32,
    pub first: Option<Place>,
    pub says: Option<List<List<Statement>>>,
}

// One statement alone.
pub(crate) fn one(alloc: Global, statement: Statement) -> Result<List<Statement>, Memory>
    ensures { IfOk result (λ l. l.items ≡ statement ∷ []) }
{
    let mut list = List::new(alloc);
    list.push(statement)?;
    Ok(list)
}

// Appends statements.
fn append(front: &mut List<Statement>, more: List<Statement>) -> Result<(), Memory>
    ensures { OnOk result (statements front.new.items ≡ behind (statements front.old.items) (statements more.items)) }
{
    for statement in more.into_vec() {
        front.push(statement)?;
    }
    Ok(())
}

// One list of statements behind another, where both are there.
fn joined(
    front: Option<List<Statement>>,
    more: Option<List<Statement>>,
) -> Result<Option<List<Statement>>, Memory>
    ensures { IfOk result (λ l. says_of l ≡ both (λ s t. Some (behind s t)) (says_of front) (says_of more)) }
{
    let Some(mut front) = front else {
        return Ok(None);
    };
    let Some(more) = more else {
        return Ok(None);
    };
    append(&mut front, more)?;
    Ok(Some(front))
}

// One branch behind others, where all are there.
fn branches_with(
    branches: Option<List<List<Statement>>>,
    branch: Option<List<Statement>>,
) -> Result<Option<List<List<Statement>>>, Memory>
    ensures { IfOk result (λ l. say_of l ≡ both (λ bs cs. Some (beside bs cs)) (say_of branches)
        (mapped (λ b. Branch b NoBranch) (says_of branch))) }
{
    let Some(mut branches) = branches else {
        return Ok(None);
    };
    let Some(branch) = branch else {
        return Ok(None);
    };
    branches.push(branch)?;
    Ok(Some(branches))
}

impl Part {
    // What is found of no statements.
    pub(crate) fn nothing(alloc: Global) -> Part
        ensures { found_of result ≡ nothing }
    {
        Part {
            named: false,
            reach: 0,
            first: None,
            says: Some(List::new(alloc)),
        }
    }

    // What is found of these statements and those behind them.
    pub(crate) fn followed_by(self, next: Part) -> Result<Part, Memory>
        ensures { IfOk result (λ p. found_of p ≡ followed (found_of self) (found_of next)) }
    {
        let Part {
            named,
            reach,
            first,
            says,
        } = self;
        let says = joined(says, next.says)?;
        Ok(Part {
            named: named | next.named,
            reach: reach.max(next.reach),
            first: first.or(next.first),
            says,
        })
    }
}

impl Each {
    // What is found of no branches.
    pub(crate) fn nothing(alloc: Global) -> Each
        ensures { each_of result ≡ no_branch }
    {
        Each {
            named: false,
            reach: 0,
            first: None,
            says: Some(List::new(alloc)),
        }
    }

    // What is found of these branches and one more.
    pub(crate) fn with_branch(self, next: Part) -> Result<Each, Memory>
        ensures { IfOk result (λ p. each_of p ≡ followed_each (each_of self) (as_branch (found_of next))) }
    {
        let Each {
            named,
            reach,
            first,
            says,
        } = self;
        let says = branches_with(says, next.says)?;
        Ok(Each {
            named: named | next.named,
            reach: reach.max(next.reach),
            first: first.or(next.first),
            says,
        })
    }
}
