//! Lists of operands that share their lower parts. Each has a number, so a copy is a number too.
//! A list is made anew only where what is pushed, or what it is pushed on, has changed.

ghost use Rattle.std.specs.Prelude.{◌≡◌, ◌<◌, ◌++◌, ◌∷◌, [], length, IfOk, OnOk, MatchOption};
ghost use Rattle.std.specs.Prelude.{◌≤◌, ◌-◌, get_or, slice_set, reverse, false, IfSome, List};
ghost use Rattle.std.specs.Bool.{OnTrue};
ghost use Rattle.cls_kinds.specs.declared.kind.Kind.{Kind};
ghost use Rattle.cls_kinds.specs.Numbers.{joined_all, is_raised};
ghost use Rattle.cls_kinds.specs.declared.stacks.Node.{Node as Listed};
ghost use Rattle.cls_kinds.specs.Stacks.{stack_at, stacks_of, AreNodes, AreRaised, IsHigher, Grows};

use crate::kind::Kind;
use mg_text::Memory;
use std::alloc::Global;
use std::marker::Model;

/// A list: the topmost kind, the list below it, and how long it is.
#[derive(Clone, Copy)]
struct Node {
    kind: Kind,
    below: u32,
    depth: u32,
}

/// The topmost kind of a list, and the list below it.
#[derive(Clone, Copy)]
pub struct Top {
    pub kind: Kind,
    pub below: u32,
}

/// Lists of kinds by numbers: 0 is the empty one. Contracts see the lists, in the order of making.
#[derive(Drop)]
pub struct Stacks {
    nodes: Vec<Node>,
    /// By slots: the list that was pushed there last.
    pushed: Vec<u32>,
    /// By numbers, less one: the list to which one was raised last, or 0.
    raised: Vec<u32>,
}

impl Model for Stacks {
    ghost use Rattle.std.specs.Prelude.{List};
    ghost use Rattle.cls_kinds.specs.declared.kind.Kind.{Kind};

    ghost Value = { List (List Kind) };

    ghost use Rattle.cls_kinds.specs.Stacks.{stacks_of, AreStacks};

    ghost view = { λ s. stacks_of s.nodes.items };

    ghost invariant = { λ s. AreStacks s.nodes.items s.raised.items };
}

/// The list that was pushed last at a slot, where it is this one.
fn pushed_at(nodes: &[Node], pushed: &[u32], slot: usize, below: u32, kind: Kind) -> Option<u32>
    ensures within { IfSome result (λ s. (0 < s) × (s ≤ length nodes.now)) }
    ensures same { IfSome result (λ s. (d : Listed) → ((get_or nodes.now (s - 1) d).below ≡ below)
        × ((get_or nodes.now (s - 1) d).kind ≡ kind)) }
{
    let number = *pushed.get(slot)?;
    if number == 0 || number as usize > nodes.len() {
        return None;
    }
    let node = nodes[number as usize - 1];
    if node.below == below && node.kind.0 == kind.0 {
        return Some(number);
    }
    None
}

/// Notes a list at a slot, where there is such a slot.
fn note(slots: &mut [u32], slot: usize, number: u32)
    ensures { slots.new ≡ slice_set slots.old slot number }
{
    if slot >= slots.len() {
        return;
    }
    slots[slot] = number;
}

/// The topmost kind of a list, and the list below it.
fn top_of(nodes: &[Node], stack: u32) -> Option<Top>
    requires made { AreNodes nodes.now }
    requires there { stack < length (stacks_of nodes.now) }
    ensures lower { IfSome result (λ t. t.below < stack) }
    ensures top { MatchOption result (stack_at (stacks_of nodes.now) stack ≡ [])
        (λ t. (t.below < length (stacks_of nodes.now)) × (stack_at (stacks_of nodes.now) stack ≡ stack_at (stacks_of nodes.now) t.below
        ++ t.kind ∷ [])) }
{
    if stack == 0 {
        return None;
    }
    let node = nodes[stack as usize - 1];
    Some(Top {
        kind: node.kind,
        below: node.below,
    })
}

/// How long a list is.
fn depth_of(nodes: &[Node], stack: u32) -> u32
    requires made { AreNodes nodes.now }
    requires there { stack < length (stacks_of nodes.now) }
    ensures { result ≡ length (stack_at (stacks_of nodes.now) stack) }
{
    if stack == 0 {
        return 0;
    }
    nodes[stack as usize - 1].depth
}

impl Stacks {
    /// The empty list alone, and so many slots at which kinds are pushed.
    ///
    /// # Errors
    /// `Memory` only.
    pub fn new(alloc: Global, slots: usize) -> Result<Stacks, Memory>
        ensures { IfOk result (λ s. s ≡ [] ∷ []) }
    {
        let pushed = vec![in alloc; 0; slots]?;
        Ok(Stacks {
            nodes: Vec::new(alloc),
            pushed,
            raised: Vec::new(alloc),
        })
    }

    /// The topmost kind of a list. None comes exactly where the list is empty.
    pub fn top(&self, stack: u32) -> Option<Top>
        requires { stack < length self.now }
        ensures { MatchOption result (stack_at self.now stack ≡ [])
            (λ t. (t.below < length self.now) × (stack_at self.now stack ≡ stack_at self.now t.below ++ t.kind ∷ [])) }
    {
        top_of(self.nodes.as_slice(), stack)
    }

    /// How long a list is.
    pub fn depth(&self, stack: u32) -> usize
        requires { stack < length self.now }
        ensures { result ≡ length (stack_at self.now stack) }
    {
        depth_of(self.nodes.as_slice(), stack) as usize
    }

    /// A list with one more kind on top, made anew.
    fn add(&mut self, below: u32, kind: Kind) -> Result<u32, Memory>
        requires { below < length self.old }
        ensures grows { OnOk result (Grows self.old self.new) }
        ensures there { IfOk result (λ s. s < length self.new) }
        ensures made { IfOk result (λ s. stack_at self.new s ≡ stack_at self.old below ++ kind ∷ []) }
    {
        let count = self.nodes.len();
        if count >= 0xffff_fffe {
            return Err(Memory);
        }
        let Some(depth) = depth_of(self.nodes.as_slice(), below).checked_add(1) else {
            return Err(Memory);
        };
        self.raised.push(0)?;
        self.nodes.push(Node { kind, below, depth })?;
        Ok(count as u32 + 1)
    }

    /// A list with one more kind on top: that which was pushed last at this slot, where it is the same.
    ///
    /// # Errors
    /// `Memory` only.
    pub fn push(&mut self, below: u32, kind: Kind, slot: usize) -> Result<u32, Memory>
        requires { below < length self.old }
        ensures grows { OnOk result (Grows self.old self.new) }
        ensures there { IfOk result (λ s. s < length self.new) }
        ensures made { IfOk result (λ s. stack_at self.new s ≡ stack_at self.old below ++ kind ∷ []) }
    {
        if let Some(number) = pushed_at(
            self.nodes.as_slice(),
            self.pushed.as_slice(),
            slot,
            below,
            kind,
        ) {
            return Ok(number);
        }
        let number = self.add(below, kind)?;
        note(self.pushed.as_mut_slice(), slot, number);
        Ok(number)
    }
}

/// Whether it is noted that the first of two lists was raised to the second.
fn was_raised(raised: &[u32], first: u32, second: u32) -> bool
    ensures { OnTrue result ((stacks : List (List Kind)) → AreRaised stacks raised.now →
        IsHigher (stack_at stacks first) (stack_at stacks second)) }
{
    if first == 0 {
        return false;
    }
    if second == 0 {
        return false;
    }
    let Some(number) = raised.get(first as usize - 1) else {
        return false;
    };
    if *number == second {
        return true;
    }
    false
}

/// Whether one of two lists of one length isn't the least that both fit.
fn raises_stack(nodes: &[Node], raised: &[u32], first: u32, second: u32) -> bool
    requires made { AreNodes nodes.now }
    requires raised { AreRaised (stacks_of nodes.now) raised.now }
    requires first { first < length (stacks_of nodes.now) }
    requires second { second < length (stacks_of nodes.now) }
    requires even { length (stack_at (stacks_of nodes.now) first) ≡ length (stack_at (stacks_of nodes.now) second) }
    ensures { result ≡ is_raised (stack_at (stacks_of nodes.now) first) (stack_at (stacks_of nodes.now) second) }
{
    let mut a = first;
    let mut b = second;
    'down: loop {
        if a == b {
            return false;
        }
        if was_raised(raised, b, a) {
            return false;
        }
        if was_raised(raised, a, b) {
            return true;
        }
        let Some(old) = top_of(nodes, a) else {
            return false;
        };
        let Some(new) = top_of(nodes, b) else {
            return false;
        };
        if old.kind.joined(new.kind).0 != old.kind.0 {
            return true;
        }
        a = old.below;
        b = new.below;
    }
}

/// What two lists are joined to: kinds, the topmost first, and the list below these. Beside each kind stands
/// the second's list that has its place on top, which is tried before one is made.
#[derive(Drop)]
struct Joint {
    kinds: Vec<Kind>,
    seconds: Vec<u32>,
    below: u32,
}

/// What two lists of one length are joined to, down to where both are one list, or one was raised to the other.
fn joined_down(
    alloc: Global,
    nodes: &[Node],
    raised: &[u32],
    first: u32,
    second: u32,
) -> Result<Joint, Memory>
    requires made { AreNodes nodes.now }
    requires raised { AreRaised (stacks_of nodes.now) raised.now }
    requires first { first < length (stacks_of nodes.now) }
    requires second { second < length (stacks_of nodes.now) }
    requires even { length (stack_at (stacks_of nodes.now) first) ≡ length (stack_at (stacks_of nodes.now) second) }
    ensures there { IfOk result (λ j. j.below < length (stacks_of nodes.now)) }
    ensures joined { IfOk result (λ j. stack_at (stacks_of nodes.now) j.below ++ reverse j.kinds.items
        ≡ joined_all (stack_at (stacks_of nodes.now) first) (stack_at (stacks_of nodes.now) second)) }
{
    let mut kinds = Vec::new(alloc);
    let mut seconds = Vec::new(alloc);
    let mut a = first;
    let mut b = second;
    'down: loop {
        if a == b {
            return Ok(Joint {
                kinds,
                seconds,
                below: a,
            });
        }
        if was_raised(raised, b, a) {
            return Ok(Joint {
                kinds,
                seconds,
                below: a,
            });
        }
        if was_raised(raised, a, b) {
            return Ok(Joint {
                kinds,
                seconds,
                below: b,
            });
        }
        let Some(old) = top_of(nodes, a) else {
            return Ok(Joint {
                kinds,
                seconds,
                below: a,
            });
        };
        let Some(new) = top_of(nodes, b) else {
            return Ok(Joint {
                kinds,
                seconds,
                below: a,
            });
        };
        kinds.push(old.kind.joined(new.kind))?;
        seconds.push(b)?;
        a = old.below;
        b = new.below;
    }
}

impl Stacks {
    /// The least list that two of one length fit: the first where it is that, else the second where that is.
    /// None is made there.
    ///
    /// # Errors
    /// `Memory` only.
    pub fn join(&mut self, alloc: Global, first: u32, second: u32) -> Result<u32, Memory>
        requires first { first < length self.old }
        requires second { second < length self.old }
        requires even { length (stack_at self.old first) ≡ length (stack_at self.old second) }
        ensures grows { OnOk result (Grows self.old self.new) }
        ensures there { IfOk result (λ s. s < length self.new) }
        ensures joined { IfOk result (λ s. stack_at self.new s ≡ joined_all (stack_at self.old first) (stack_at self.old second)) }
        ensures kept { IfOk result (λ s. is_raised (stack_at self.old first) (stack_at self.old second) ≡ false → s ≡ first) }
    {
        if !raises_stack(self.nodes.as_slice(), self.raised.as_slice(), first, second) {
            return Ok(first);
        }
        if !raises_stack(self.nodes.as_slice(), self.raised.as_slice(), second, first) {
            self.note_raised(first, second);
            return Ok(second);
        }
        let joint = joined_down(
            alloc,
            self.nodes.as_slice(),
            self.raised.as_slice(),
            first,
            second,
        )?;
        let joined = self.add_all(
            joint.below,
            joint.kinds.as_slice(),
            joint.seconds.as_slice(),
        )?;
        self.note_raised(first, joined);
        Ok(joined)
    }

    /// Notes that a list was raised to another one.
    fn note_raised(&mut self, first: u32, to: u32)
        requires first { first < length self.old }
        requires to { to < length self.old }
        requires higher { IsHigher (stack_at self.old first) (stack_at self.old to) }
        ensures { self.new ≡ self.old }
    {
        if first > 0 {
            note(self.raised.as_mut_slice(), first as usize - 1, to);
        }
    }

    /// A list with one more kind on top: that which a list of numbers has at a place, where it is the same.
    fn add_where(
        &mut self,
        below: u32,
        kind: Kind,
        numbers: &[u32],
        at: usize,
    ) -> Result<u32, Memory>
        requires { below < length self.old }
        ensures grows { OnOk result (Grows self.old self.new) }
        ensures there { IfOk result (λ s. s < length self.new) }
        ensures made { IfOk result (λ s. stack_at self.new s ≡ stack_at self.old below ++ kind ∷ []) }
    {
        if let Some(number) = pushed_at(self.nodes.as_slice(), numbers, at, below, kind) {
            return Ok(number);
        }
        self.add(below, kind)
    }

    /// A list with more kinds on top, the last one first. Those of `seconds` serve where they are the same.
    fn add_all(&mut self, below: u32, kinds: &[Kind], seconds: &[u32]) -> Result<u32, Memory>
        requires { below < length self.old }
        ensures grows { OnOk result (Grows self.old self.new) }
        ensures there { IfOk result (λ s. s < length self.new) }
        ensures made { IfOk result (λ s. stack_at self.new s ≡ stack_at self.old below ++ reverse kinds.now) }
    {
        let mut stack = below;
        let mut left = kinds.len();
        while left > 0 {
            left -= 1;
            stack = self.add_where(stack, kinds[left], seconds, left)?;
        }
        Ok(stack)
    }
}
