//! Control goes round the protocols of a file, and begins a `rec` again, only behind a message.

ghost use Rattle.std.specs.Prelude.{◌≡◌, ◌↔◌, [], ◌∷◌, List, ℕ, true, Some, IfOk, OnOk, IsTrue, Contains, map, replicate, length, position};
ghost use Rattle.std.specs.Str.{bytes_eq};
ghost use Rattle.mg_text.specs.Interned.{with_text};
ghost use Rattle.mg_read.specs.First.{Judged};
ghost use Rattle.scr_tree.specs.Going.{Leads, Unguarded};
ghost use Rattle.scr_tree.specs.Spots.{spots_of};
ghost use Rattle.scr_tree.specs.Tree.{body_in};
ghost use Rattle.scr_tree.specs.View.{statements};
ghost use Rattle.scr_tree.specs.Written.{parts_in, title_of, written_of};
ghost use Rattle.scr_tree.specs.declared.written.WrittenPart.{WrittenPart as Part};
ghost use Rattle.scr_judge.specs.inner.Cycles.{IsRound};
ghost use Rattle.scr_judge.specs.inner.Gone.{part_name};
ghost use Rattle.scr_judge.specs.inner.Own.{FirstIn, all_parts};
ghost use Rattle.scr_judge.specs.inner.Round.{Falls, Reaches, FoundBad, IsGuarded, all_edges, edges_at, gone, numbers_of};
ghost use Rattle.scr_judge.specs.inner.Round.{titles, with_edges, with_texts};
ghost use Rattle.scr_judge.specs.inner.View.{culprit_of, goal_of, graph_of, told_names};

use crate::culprit::Culprit;
use crate::gone::gone_all;
use crate::guards::find_unguarded_or;
use crate::round::{falls, leads, ranks_of, value_at};
use mg_text::{Memory, Names};
use scr_tree::{Written, WrittenPart};
use std::alloc::Global;

/// The first `continue` to which control can come from the opening of its `rec` with no message, or
/// `do` that is on a cycle of protocols each of which has a `do` of the next with no message on the
/// path from its opening.
pub fn find_unguarded_in_file(
    alloc: Global,
    written: &Written,
) -> Result<Option<Culprit<'_>>, Memory>
    ensures { IfOk result (λ r. Judged (Unguarded (map title_of (parts_in (written_of 0 written.now))))
        (spots_of body_in (map title_of (parts_in (written_of 0 written.now)))) (culprit_of r)) }
{
    let round = Round::of(alloc, written)?;
    match round.find_in(alloc, &written.first)? {
        Some(culprit) => Ok(Some(culprit)),
        None => round.find_among(alloc, written.others.as_slice()),
    }
}

// The protocols by the numbers of their names, and where each goes on with no message.
#[derive(Drop)]
struct Round {
    names: Names,
    targets: Vec<Vec<u32>>,
    ranks: Vec<u32>,
    // Whether no protocol goes on as one of a higher rank.
    falls: bool,
}

// Adds a name, if it is new.
fn add_name(names: &mut Names, name: &str) -> Result<(), Memory>
    ensures { OnOk result (names.new ≡ with_text names.old name.now) }
{
    if names.len() > u32::MAX as usize {
        return Err(Memory);
    }
    names.add(name)?;
    Ok(())
}

// Adds the names of protocols.
#[tactic(auto, using(crate::proofs::Edges::text_steps))]
fn add_names(names: &mut Names, parts: &[WrittenPart]) -> Result<(), Memory>
    ensures { OnOk result (names.new ≡ with_texts (map part_name parts.now) names.old) }
{
    for part in parts {
        add_name(names, part.name.as_str())?;
    }
    Ok(())
}

// The names of all protocols.
fn names_of(alloc: Global, written: &Written) -> Result<Names, Memory>
    ensures { IfOk result (λ n. n ≡ with_texts (map part_name (all_parts written.now)) []) }
{
    let mut names = Names::new(alloc);
    add_name(&mut names, written.first.name.as_str())?;
    add_names(&mut names, written.others.as_slice())?;
    Ok(names)
}

// The numbers of those names that have one.
#[tactic(auto, using(crate::proofs::Edges::number_steps))]
fn numbers_of(alloc: Global, names: &Names, sought: &[&str]) -> Result<Vec<u32>, Memory>
    ensures { IfOk result (λ v. v.items ≡ numbers_of names.now (told_names sought.now)) }
{
    let mut numbers = Vec::new(alloc);
    for name in sought {
        match names.find(name) {
            Some(number) => numbers.push(number.0)?,
            None => {}
        }
    }
    Ok(numbers)
}

// Adds the edges of a protocol: to where it goes on with no message.
fn add_edges(
    alloc: Global,
    names: &Names,
    targets: &mut [Vec<u32>],
    part: &WrittenPart,
) -> Result<(), Memory>
    ensures { OnOk result (graph_of targets.new ≡ with_edges names.now part.now (graph_of targets.old)) }
{
    let Some(from) = names.find(part.name.as_str()) else {
        return Ok(());
    };
    let mut gone = Vec::new(alloc);
    gone_all(true, &mut gone, part.body.as_slice())?;
    let more = numbers_of(alloc, names, gone.as_slice())?;
    add_to(targets, from.0, more.as_slice())
}

// Adds edges of a node, if there is such a node.
fn add_to(targets: &mut [Vec<u32>], node: u32, more: &[u32]) -> Result<(), Memory>
    ensures { OnOk result (graph_of targets.new ≡ edges_at (Some node) more.now (graph_of targets.old)) }
{
    let index = node as usize;
    if index >= targets.len() {
        return Ok(());
    }
    targets[index].extend_from_slice(more)?;
    Ok(())
}

// Adds the edges of protocols.
#[tactic(auto, using(crate::proofs::Edges::edge_steps))]
fn add_all_edges(
    alloc: Global,
    names: &Names,
    targets: &mut [Vec<u32>],
    parts: &[WrittenPart],
) -> Result<(), Memory>
    ensures { OnOk result (graph_of targets.new ≡ all_edges names.now parts.now (graph_of targets.old)) }
{
    for part in parts {
        add_edges(alloc, names, targets, part)?;
    }
    Ok(())
}

// So many nodes without edges.
fn no_edges(alloc: Global, count: usize) -> Result<Vec<Vec<u32>>, Memory>
    ensures { IfOk result (λ v. graph_of v.items ≡ replicate count []) }
{
    let mut targets = Vec::new(alloc);
    for _ in 0..count {
        targets.push(Vec::new(alloc))?;
    }
    Ok(targets)
}

// The edges of all protocols.
fn edges_of(alloc: Global, names: &Names, written: &Written) -> Result<Vec<Vec<u32>>, Memory>
    ensures { IfOk result (λ v. graph_of v.items ≡ all_edges names.now (all_parts written.now) (replicate (length names.now) [])) }
{
    let mut targets = no_edges(alloc, names.len())?;
    add_edges(alloc, names, targets.as_mut_slice(), &written.first)?;
    add_all_edges(
        alloc,
        names,
        targets.as_mut_slice(),
        written.others.as_slice(),
    )?;
    Ok(targets)
}

impl Round {
    fn of(alloc: Global, written: &Written) -> Result<Round, Memory>
        ensures { IfOk result (λ r. IsRound (all_parts written.now) r) }
    {
        let names = names_of(alloc, written)?;
        let targets = edges_of(alloc, &names, written)?;
        let ranks = ranks_of(alloc, targets.as_slice())?;
        let falls = falls(targets.as_slice(), ranks.as_slice());
        Ok(Round {
            names,
            targets,
            ranks,
            falls,
        })
    }

    // The first culprit of protocols.
    fn find_among<'a>(
        &self,
        alloc: Global,
        parts: &'a [WrittenPart],
    ) -> Result<Option<Culprit<'a>>, Memory>
        ensures { IfOk result (λ r. (ps : List Part) → IsRound ps self.now → ((p : Part) → Contains parts.now p → Contains ps p) →
            FirstIn (IsGuarded ps) parts.now (culprit_of r)) }
    {
        for part in parts {
            if let Some(culprit) = self.find_in(alloc, part)? {
                return Ok(Some(culprit));
            }
        }
        Ok(None)
    }

    // The first culprit of a protocol.
    fn find_in<'a>(
        &self,
        alloc: Global,
        part: &'a WrittenPart,
    ) -> Result<Option<Culprit<'a>>, Memory>
        ensures { IfOk result (λ r. (ps : List Part) → IsRound ps self.now → Contains ps part.now → IsGuarded ps part.now (culprit_of r)) }
    {
        let goal = self.goal_of(alloc, part)?;
        Ok(find_unguarded_or(goal, part.body.as_slice()))
    }

    // The name of the first `do` of a protocol that is on a cycle.
    fn goal_of<'a>(&self, alloc: Global, part: &'a WrittenPart) -> Result<Option<&'a str>, Memory>
        ensures { IfOk result (λ g. (ps : List Part) → IsRound ps self.now → Contains ps part.now →
            FirstIn (FoundBad (λ n. Leads (titles ps) n part.now.name)) (gone true (statements part.now.body.items)) (goal_of g)) }
    {
        match self.names.find(part.name.as_str()) {
            Some(own) => self.goal_from(alloc, own.0, part),
            None => Ok(None),
        }
    }

    // The first name that a protocol goes on to with no message and that leads back to that of this
    // number.
    fn goal_from<'a>(
        &self,
        alloc: Global,
        own: u32,
        part: &'a WrittenPart,
    ) -> Result<Option<&'a str>, Memory>
        ensures { IfOk result (λ g. (ps : List Part) (to : List ℕ) → IsRound ps self.now → position (bytes_eq to) self.now.names ≡ Some own
            →
            FirstIn (FoundBad (λ n. Leads (titles ps) n to)) (gone true (statements part.now.body.items)) (goal_of g)) }
    {
        let mut names = Vec::new(alloc);
        gone_all(true, &mut names, part.body.as_slice())?;
        self.first_back(alloc, own, names.as_slice())
    }

    // The first name that leads back to that of this number.
    fn first_back<'a>(
        &self,
        alloc: Global,
        own: u32,
        names: &[&'a str],
    ) -> Result<Option<&'a str>, Memory>
        ensures { IfOk result (λ g. (ps : List Part) (to : List ℕ) → IsRound ps self.now → position (bytes_eq to) self.now.names ≡ Some own
            →
            FirstIn (FoundBad (λ n. Leads (titles ps) n to)) (told_names names.now) (goal_of g)) }
    {
        for (i, name) in names.iter().enumerate() {
            let back = self.goes_back(alloc, name, own)?;
            if back {
                return Ok(Some(names[i]));
            }
        }
        Ok(None)
    }

    // Whether protocols go on from this name to that of this number.
    fn goes_back(&self, alloc: Global, name: &str, own: u32) -> Result<bool, Memory>
        ensures { IfOk result (λ b. (ps : List Part) (to : List ℕ) → IsRound ps self.now → position (bytes_eq to) self.now.names ≡ Some own
            →
            IsTrue b ↔ Leads (titles ps) name.now to) }
    {
        match self.names.find(name) {
            Some(from) => self.comes_back(alloc, from.0, own),
            None => Ok(false),
        }
    }

    // Whether edges lead from one to another.
    fn comes_back(&self, alloc: Global, from: u32, to: u32) -> Result<bool, Memory>
        ensures { IfOk result (λ b. (IsTrue self.now.falls → Falls (graph_of self.now.targets.items) self.now.ranks.items) →
            IsTrue b ↔ Reaches (graph_of self.now.targets.items) from to) }
    {
        let ranks = self.ranks.as_slice();
        let apart = value_at(ranks, from as usize) < value_at(ranks, to as usize);
        if self.falls && apart {
            return Ok(false);
        }
        leads(alloc, self.targets.as_slice(), from, to)
    }
}
