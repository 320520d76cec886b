//! Protocols that go on as one another with no message, as a graph: its edges, an order of its
//! numbers, and which way leads back.

ghost use Rattle.std.specs.Prelude.{◌≡◌, ◌↔◌, ◌≤◌, [], ℕ, IfOk, OnOk, IsTrue, Contains, get_or, length, replicate};
ghost use Rattle.scr_judge.specs.inner.Round.{Falls, HasEdge, Reaches};
ghost use Rattle.scr_judge.specs.inner.Search.{Comes, Spreads, OnFalseOk};
ghost use Rattle.scr_judge.specs.inner.View.{graph_of};

use mg_text::Memory;
use std::alloc::Global;

/// A node whose edges are being followed, and the index of the next one.
#[derive(Clone, Copy)]
struct Visit {
    node: u32,
    next: usize,
}

/// What is known of the nodes while their ranks are sought.
#[derive(Drop)]
struct Search {
    // The order in which the nodes were come to, from 1 on; 0 where one wasn't.
    numbers: Vec<u32>,
    // The lowest number that is known to be come to from a node.
    lows: Vec<u32>,
    // The rank of each node, from 1 on; 0 where it isn't known.
    ranks: Vec<u32>,
    // The nodes that were come to and have no rank yet.
    open: Vec<u32>,
    // The nodes whose edges are being followed.
    visits: Vec<Visit>,
    count: u32,
    rank: u32,
}

/// A rank for each node, such that no edge should lead to a higher rank, and edges between nodes of
/// one rank lead back. `falls` checks the one, `comes_back` the other: this only proposes, so that
/// they find little to do. Each edge is followed once.
pub fn ranks_of(alloc: Global, targets: &[Vec<u32>]) -> Result<Vec<u32>, Memory>
    ensures { IfOk result (λ r. length r.items ≡ length targets.now) }
{
    let mut search = Search::of(alloc, targets.len())?;
    let mut steps: usize = 0;
    for edges in targets {
        steps = steps.saturating_add(edges.len()).saturating_add(2);
    }
    for node in 0..targets.len() {
        search.start(node)?;
        steps = search.follow(targets, steps)?;
    }
    let Search { ranks, .. } = search;
    Ok(ranks)
}

/// The value at an index, or 0.
pub fn value_at(values: &[u32], index: usize) -> u32
    ensures { result ≡ get_or values.now index 0 }
{
    match values.get(index) {
        Some(value) => *value,
        None => 0,
    }
}

// Writes a value at an index, if there is one.
fn put(values: &mut [u32], index: usize, value: u32)
    ensures { length values.new ≡ length values.old }
{
    if index < values.len() {
        values[index] = value;
    }
}

// So many zeros.
fn zeros(alloc: Global, count: usize) -> Result<Vec<u32>, Memory>
    ensures { IfOk result (λ v. v.items ≡ replicate count 0) }
{
    let values = vec![in alloc; 0; count]?;
    Ok(values)
}

impl Search {
    // Nothing is known of so many nodes.
    fn of(alloc: Global, count: usize) -> Result<Search, Memory>
        ensures { IfOk result (λ s. length s.ranks.items ≡ count) }
    {
        let numbers = zeros(alloc, count)?;
        let lows = zeros(alloc, count)?;
        let ranks = zeros(alloc, count)?;
        Ok(Search {
            numbers,
            lows,
            ranks,
            open: Vec::new(alloc),
            visits: Vec::new(alloc),
            count: 0,
            rank: 0,
        })
    }

    // Begins at a node that wasn't come to.
    fn start(&mut self, node: usize) -> Result<(), Memory>
        ensures { length self.new.ranks.items ≡ length self.old.ranks.items }
    {
        if value_at(self.numbers.as_slice(), node) > 0 {
            return Ok(());
        }
        let Ok(node) = u32::try_from(node) else {
            return Err(Memory);
        };
        self.visits.push(Visit { node, next: 0 })?;
        Ok(())
    }

    // Follows edges, at most so many; the answer is how many are left.
    fn follow(&mut self, targets: &[Vec<u32>], steps: usize) -> Result<usize, Memory>
        ensures { length self.new.ranks.items ≡ length self.old.ranks.items }
    {
        let mut left = steps;
        while left > 0 {
            left -= 1;
            let Some(visit) = self.visits.pop() else {
                return Ok(left);
            };
            self.visit(targets, visit)?;
        }
        Ok(0)
    }

    // Follows the next edge of a node, or leaves it.
    fn visit(&mut self, targets: &[Vec<u32>], visit: Visit) -> Result<(), Memory>
        ensures { length self.new.ranks.items ≡ length self.old.ranks.items }
    {
        let node = visit.node as usize;
        let Some(edges) = targets.get(node) else {
            return Ok(());
        };
        if value_at(self.numbers.as_slice(), node) == 0 {
            self.enter(visit.node)?;
        }
        let Some(target) = edges.as_slice().get(visit.next) else {
            self.leave(visit.node);
            return Ok(());
        };
        self.visits.push(Visit {
            node: visit.node,
            next: visit.next.saturating_add(1),
        })?;
        let number = value_at(self.numbers.as_slice(), *target as usize);
        if number == 0 {
            self.visits.push(Visit {
                node: *target,
                next: 0,
            })?;
            return Ok(());
        }
        if value_at(self.ranks.as_slice(), *target as usize) == 0 {
            self.lower(node, number);
        }
        Ok(())
    }

    // Comes to a node.
    fn enter(&mut self, node: u32) -> Result<(), Memory>
        ensures { length self.new.ranks.items ≡ length self.old.ranks.items }
    {
        let Some(count) = self.count.checked_add(1) else {
            return Err(Memory);
        };
        self.count = count;
        put(self.numbers.as_mut_slice(), node as usize, count);
        put(self.lows.as_mut_slice(), node as usize, count);
        self.open.push(node)?;
        Ok(())
    }

    // A node comes to this number.
    fn lower(&mut self, node: usize, number: u32)
        ensures { length self.new.ranks.items ≡ length self.old.ranks.items }
    {
        if number < value_at(self.lows.as_slice(), node) {
            put(self.lows.as_mut_slice(), node, number);
        }
    }

    // Leaves a node whose edges were all followed.
    fn leave(&mut self, node: u32)
        ensures { length self.new.ranks.items ≡ length self.old.ranks.items }
    {
        let low = value_at(self.lows.as_slice(), node as usize);
        if low == value_at(self.numbers.as_slice(), node as usize) {
            self.rank_from(node);
        }
        if let Some(visit) = self.visits.last() {
            let around = visit.node as usize;
            self.lower(around, low);
        }
    }

    // Ranks the open nodes from this one on.
    fn rank_from(&mut self, node: u32)
        ensures { length self.new.ranks.items ≡ length self.old.ranks.items }
    {
        self.rank = self.rank.saturating_add(1);
        'open: while let Some(other) = self.open.pop() {
            put(self.ranks.as_mut_slice(), other as usize, self.rank);
            if other == node {
                return;
            }
        }
    }
}

/// Whether no edge leads to a higher rank.
pub fn falls(targets: &[Vec<u32>], ranks: &[u32]) -> bool
    ensures { IsTrue result → Falls (graph_of targets.now) ranks.now }
{
    for (node, edges) in targets.iter().enumerate() {
        if !all_below(edges.as_slice(), ranks, value_at(ranks, node)) {
            return false;
        }
    }
    true
}

// Whether no node has a rank above this.
fn all_below(nodes: &[u32], ranks: &[u32], rank: u32) -> bool
    ensures { IsTrue result → (w : ℕ) → Contains nodes.now w → get_or ranks.now w 0 ≤ rank }
{
    for node in nodes {
        if value_at(ranks, *node as usize) > rank {
            return false;
        }
    }
    true
}

/// Whether edges lead from a node to another.
pub fn leads(alloc: Global, targets: &[Vec<u32>], from: u32, to: u32) -> Result<bool, Memory>
    ensures { IfOk result (λ b. IsTrue b ↔ Reaches (graph_of targets.now) from to) }
{
    if from == to {
        return Ok(true);
    }
    let mut seen = zeros(alloc, targets.len())?;
    let mut waiting = Vec::new(alloc);
    come_to(seen.as_mut_slice(), &mut waiting, from)?;
    'nodes: while let Some(node) = waiting.pop() {
        if follow(targets, node, to, seen.as_mut_slice(), &mut waiting)? {
            return Ok(true);
        }
    }
    Ok(false)
}

// Comes to each node to which an edge of this one leads; true where the one that is sought is among
// them.
fn follow(
    targets: &[Vec<u32>],
    node: u32,
    to: u32,
    seen: &mut [u32],
    waiting: &mut Vec<u32>,
) -> Result<bool, Memory>
    ensures hit { IfOk result (λ b. IsTrue b → HasEdge (graph_of targets.now) node to) }
    ensures spread { OnFalseOk result
        (Spreads (get_or (graph_of targets.now) node []) to seen.old waiting.old.items seen.new waiting.new.items) }
{
    match targets.get(node as usize) {
        Some(edges) => spread(edges.as_slice(), to, seen, waiting),
        None => Ok(false),
    }
}

// Comes to a node, which waits where it is new.
#[tactic(auto, using(crate::proofs::Searching::comes))]
fn come_to(seen: &mut [u32], waiting: &mut Vec<u32>, node: u32) -> Result<(), Memory>
    ensures { OnOk result (Comes node seen.old waiting.old.items seen.new waiting.new.items) }
{
    let index = node as usize;
    if index >= seen.len() {
        return Ok(());
    }
    if seen[index] != 0 {
        return Ok(());
    }
    seen[index] = 1;
    waiting.push(node)?;
    Ok(())
}

// Comes to each of these nodes; true where the one that is sought is among them.
#[tactic(auto, using(crate::proofs::Searching::spreads))]
fn spread(nodes: &[u32], to: u32, seen: &mut [u32], waiting: &mut Vec<u32>) -> Result<bool, Memory>
    ensures hit { IfOk result (λ b. IsTrue b → Contains nodes.now to) }
    ensures spread { OnFalseOk result (Spreads nodes.now to seen.old waiting.old.items seen.new waiting.new.items) }
{
    for node in nodes {
        if *node == to {
            return Ok(true);
        }
        come_to(seen, waiting, *node)?;
    }
    Ok(false)
}
