//! Lays out the states of a protocol from the end of its text on, so that what follows a statement is there before it.

ghost use Rattle.std.specs.Prelude.{◌≡◌, ◌<◌, ◌-◌, [], map, OnOk, IfOk, length};
ghost use Rattle.scr_tree.specs.View.{statements, front, part_of};
ghost use Rattle.scr_tree.specs.Tree.{Nothing, other};
ghost use Rattle.scr_tree.specs.Local.{tree_of};
ghost use Rattle.scr_tree.specs.Meaning.{protocol_of};
ghost use Rattle.scr_trace.specs.Graph.{Automates};
ghost use Rattle.scr_trace.specs.inner.Laying.{lay, lay_in, branch_laid, part_laid, parts_laid, LaidOut, joined, said, opened, closed};
ghost use Rattle.scr_trace.specs.inner.Laying.{chosen, hop_named, hop_to};
ghost use Rattle.scr_trace.specs.inner.View.{number_by, known_of, work_of, gathered, bodies, graph_of_work};

use crate::arrow::{Arrow, Exits, Hop};
use crate::entries::{numbers_of, settle};
use mg_text::{List, Memory};
use scr_tree::{Local, Message, Part, Statement};
use std::alloc::Global;
use std::collections::HashMap;

/// What is laid out of a text, from its end on.
pub struct Laying<'a> {
    // What the states offer, that of the last state first.
    pub(crate) exits: List<Exits<'a>>,
    // Of each `rec`, the number of the first state inside it.
    pub(crate) loops: Vec<u32>,
    // Where each protocol begins, that of the last one first.
    pub(crate) entries: Vec<Hop>,
    // How many choices are made elsewhere.
    choices: u32,
    // Where what is laid out begins.
    next: Hop,
}

// One call lets go of it, wherever a function ends.
impl Drop for Laying<'_> {
    fn drop(self) {
        let Laying {
            exits: _,
            loops: _,
            entries: _,
            choices: _,
            next: _,
        } = self;
    }
}

// The `rec`s around a statement, innermost first, with their numbers.
#[derive(Clone, Copy)]
enum Around<'a> {
    Outside,
    Inside(&'a str, u32, &'a Around<'a>),
}

// Where a `continue` of this name leads.
fn hop_named(name: &str, around: &Around<'_>) -> Hop
    ensures { result ≡ hop_named name.now (known_of around.now) }
{
    match around {
        Around::Outside => Hop::End,
        Around::Inside(other, number, around) => {
            if name == *other {
                Hop::Loop(*number)
            } else {
                hop_named(name, around)
            }
        }
    }
}

// Where a `do` of this name leads.
#[tactic(auto, unfolding(crate::specs::inner::View::number_by))]
fn hop_to(name: &str, names: &HashMap<String, u32>) -> Hop
    ensures { result ≡ hop_to (number_by names.now name.now) }
{
    match names.get(name) {
        Some(number) => Hop::Part(*number),
        None => Hop::End,
    }
}

// Lays out statements in front of what is there.
#[tactic(auto, using(crate::proofs::Steps::all_steps))]
#[cycle(laying)]
fn lay_all<'a>(
    alloc: Global,
    me: &str,
    names: &HashMap<String, u32>,
    around: &Around<'_>,
    out: &mut Laying<'a>,
    body: &'a [Statement],
) -> Result<(), Memory>
    ensures { OnOk result (work_of out.new ≡ lay me.now (number_by names.now) (known_of around.now) (work_of out.old)
        (statements body.now)) }
{
    let mut i = body.len();
    while i > 0 {
        i -= 1;
        lay_at(alloc, me, names, around, out, &body[i])?;
    }
    Ok(())
}

#[tactic(auto, using(crate::proofs::Steps::alone))]
#[cycle(laying)]
fn lay_at<'a>(
    alloc: Global,
    me: &str,
    names: &HashMap<String, u32>,
    around: &Around<'_>,
    out: &mut Laying<'a>,
    statement: &'a Statement,
) -> Result<(), Memory>
    ensures { OnOk result (work_of out.new ≡ lay me.now (number_by names.now) (known_of around.now) (work_of out.old)
        (front statement.now Nothing)) }
{
    match statement {
        Statement::Message(message) => out.put_message(alloc, message),
        Statement::Choice { at, branches, .. } => {
            let at_self = at.as_str() == me;
            let mut arrows = List::new(alloc);
            lay_branches(
                alloc,
                me,
                names,
                around,
                at_self,
                out,
                &mut arrows,
                branches.as_slice(),
            )?;
            out.put_choice(at_self, arrows)
        }
        Statement::Rec { name, body, .. } => {
            let number = out.open()?;
            let inside = Around::Inside(name.as_str(), number, &*around);
            lay_all(alloc, me, names, &inside, out, body.as_slice())?;
            out.close(number);
            Ok(())
        }
        Statement::Continue { name, .. } => {
            out.next = hop_named(name.as_str(), around);
            Ok(())
        }
        Statement::Do { name, .. } => {
            out.next = hop_to(name.as_str(), names);
            Ok(())
        }
    }
}

#[tactic(auto, using(crate::proofs::Steps::in_steps))]
#[cycle(laying)]
fn lay_branches<'a>(
    alloc: Global,
    me: &str,
    names: &HashMap<String, u32>,
    around: &Around<'_>,
    at_self: bool,
    out: &mut Laying<'a>,
    arrows: &mut List<Arrow<'a>>,
    branches: &'a [List<Statement>],
) -> Result<(), Memory>
    ensures { OnOk result (gathered out.new arrows.new ≡ lay_in me.now (number_by names.now) (known_of around.now) at_self
        (work_of out.old).next (gathered out.old arrows.old) (bodies branches.now)) }
{
    let behind = out.next;
    let mut i = branches.len();
    while i > 0 {
        i -= 1;
        out.next = behind;
        lay_branch(
            alloc,
            me,
            names,
            around,
            at_self,
            out,
            arrows,
            branches[i].as_slice(),
        )?;
    }
    Ok(())
}

#[cycle(laying)]
fn lay_branch<'a>(
    alloc: Global,
    me: &str,
    names: &HashMap<String, u32>,
    around: &Around<'_>,
    at_self: bool,
    out: &mut Laying<'a>,
    arrows: &mut List<Arrow<'a>>,
    branch: &'a [Statement],
) -> Result<(), Memory>
    ensures { OnOk result (gathered out.new arrows.new ≡ branch_laid me.now (number_by names.now) at_self (known_of around.now)
        (statements branch.now) (gathered out.old arrows.old)) }
{
    let Some((statement, rest)) = branch.split_first() else {
        return Ok(());
    };
    let Statement::Message(message) = statement else {
        return Ok(());
    };
    lay_all(alloc, me, names, around, out, rest)?;
    join(alloc, at_self, out, arrows, message)
}

// The first message of a branch, in front of what stands behind it.
#[tactic(auto, using(crate::proofs::Steps::pushes), unfolding(crate::specs::inner::Laying::joined, crate::specs::inner::Laying::said))]
fn join<'a>(
    alloc: Global,
    at_self: bool,
    out: &mut Laying<'a>,
    arrows: &mut List<Arrow<'a>>,
    message: &'a Message,
) -> Result<(), Memory>
    ensures { OnOk result (gathered out.new arrows.new ≡ joined at_self message.now (gathered out.old arrows.old)) }
{
    if at_self {
        arrows.push(Arrow {
            message,
            to: out.next,
        })?;
        return Ok(());
    }
    out.put_message(alloc, message)?;
    arrows.push(Arrow {
        message,
        to: out.next,
    })?;
    Ok(())
}

// Lays out protocols in front of what is there.
#[tactic(auto, using(crate::proofs::Steps::part_steps))]
fn lay_others<'a>(
    alloc: Global,
    me: &str,
    names: &HashMap<String, u32>,
    out: &mut Laying<'a>,
    others: &'a [Part],
) -> Result<(), Memory>
    ensures { OnOk result (work_of out.new ≡ parts_laid me.now (number_by names.now) (map other (map part_of others.now))
        (work_of out.old)) }
{
    let mut i = others.len();
    while i > 0 {
        i -= 1;
        lay_part(alloc, me, names, out, others[i].body.as_slice())?;
    }
    Ok(())
}

// Lays out a protocol in front of what is there.
fn lay_part<'a>(
    alloc: Global,
    me: &str,
    names: &HashMap<String, u32>,
    out: &mut Laying<'a>,
    body: &'a [Statement],
) -> Result<(), Memory>
    ensures { OnOk result (work_of out.new ≡ part_laid me.now (number_by names.now) (statements body.now) (work_of out.old)) }
{
    out.next = Hop::End;
    lay_all(alloc, me, names, &Around::Outside, out, body)?;
    out.entries.push(out.next)?;
    Ok(())
}

impl<'a> Laying<'a> {
    /// What is laid out of a local protocol: its automaton.
    /// The only error is `Memory`, where there is too little of it.
    pub fn of(alloc: Global, local: &'a Local) -> Result<Laying<'a>, Memory>
        ensures laid { IfOk result (λ l. LaidOut (tree_of local.now) (work_of l)) }
        ensures automaton { IfOk result (λ l. Automates (protocol_of (tree_of local.now)) (graph_of_work (work_of l))) }
    {
        let names = numbers_of(alloc, local)?;
        let mut laid = Laying {
            exits: List::new(alloc),
            loops: Vec::new(alloc),
            entries: Vec::new(alloc),
            choices: 0,
            next: Hop::End,
        };
        let me = local.me().as_str();
        lay_others(alloc, me, &names, &mut laid, local.others().as_slice())?;
        lay_part(alloc, me, &names, &mut laid, local.body().as_slice())?;
        settle(&mut laid.entries);
        Ok(laid)
    }

    /// How many states there are.
    #[tactic(auto, using(crate::proofs::Steps::pushes))]
    pub fn len(&self) -> u32
        ensures { result ≡ length (work_of self.now).cells }
    {
        self.exits.len() as u32
    }

    /// Where the protocol begins.
    pub fn start(&self) -> Hop
        ensures { result ≡ (work_of self.now).next }
    {
        self.next
    }

    /// The number of a choice elsewhere, from how many stand behind its opening.
    pub fn choice_number(&self, behind: u32) -> u32
        ensures { result ≡ (work_of self.now).choices - behind }
    {
        self.choices.saturating_sub(behind)
    }

    // A message that is a state.
    #[tactic(auto, using(crate::proofs::Steps::pushes), unfolding(crate::specs::inner::Laying::said))]
    fn put_message(&mut self, alloc: Global, message: &'a Message) -> Result<(), Memory>
        ensures { OnOk result (work_of self.new ≡ said message.now (work_of self.old)) }
    {
        let mut arrows = List::new(alloc);
        arrows.push(Arrow {
            message,
            to: self.next,
        })?;
        self.exits.push(Exits {
            number: None,
            arrows,
        })?;
        self.next = Hop::State(self.exits.len() as u32);
        Ok(())
    }

    // A choice whose branches are laid out, with their first messages.
    #[tactic(auto, using(crate::proofs::Steps::pushes), unfolding(crate::specs::inner::Laying::chosen))]
    fn put_choice(&mut self, at_self: bool, arrows: List<Arrow<'a>>) -> Result<(), Memory>
        ensures { OnOk result (work_of self.new ≡ chosen at_self (gathered self.old arrows.entry)) }
    {
        let number = if at_self { None } else { Some(self.choices) };
        if !at_self {
            let Some(choices) = self.choices.checked_add(1) else {
                return Err(Memory);
            };
            self.choices = choices;
        }
        self.exits.push(Exits { number, arrows })?;
        self.next = Hop::State(self.exits.len() as u32);
        Ok(())
    }

    // The number of a `rec` whose body comes next.
    #[tactic(auto, unfolding(crate::specs::inner::Laying::opened))]
    fn open(&mut self) -> Result<u32, Memory>
        ensures opens { OnOk result (work_of self.new ≡ opened (work_of self.old)) }
        ensures number { IfOk result (λ n. n ≡ length (work_of self.old).loops) }
    {
        let Ok(number) = u32::try_from(self.loops.len()) else {
            return Err(Memory);
        };
        self.loops.push(0)?;
        Ok(number)
    }

    // The body of the `rec` of this number is laid out.
    #[tactic(auto, unfolding(crate::specs::inner::Laying::closed))]
    fn close(&mut self, number: u32)
        requires { number < length (work_of self.old).loops }
        ensures { work_of self.new ≡ closed number (work_of self.old) }
    {
        self.loops[number as usize] = self.exits.len() as u32;
    }
}
