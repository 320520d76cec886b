//! The machine as other crates see it.
//! It starts at a `main`, takes one step at a time, and says for whose message it waits.

ghost use Rattle.std.specs.Prelude.{◌≡◌, ◌∷◌, ◌<◌, ◌≤◌, ◌↔◌, false, length, position, IsTrue, IfSome, IfOk, OnErr};
ghost use Rattle.std.specs.Str.{bytes_eq};
ghost use Rattle.vm_model.specs.View.{method_of};
ghost use Rattle.vm_model.specs.Program as program;
ghost use Rattle.vm_model.specs.Start.{IsStart, started, class_named, main_in, is_main};
ghost use Rattle.vm_model.specs.Step as model;
ghost use Rattle.vm_session.specs.State.{state_of};
ghost use Rattle.vm_session.specs.Doing.{Does};
ghost use Rattle.vm_step.specs.Doing.{waits_in};
ghost use Rattle.vm_step.specs.Alone.{AllAlone};
ghost use Rattle.vm_step.specs.Main.{HasMain};
ghost use Rattle.vm_flat.specs.Flat.{IsFlatOf};
ghost use Rattle.cls_verify.specs.Typing.{AllTypable};
ghost use Rattle.cls_verify.specs.Sound.{Sound};
ghost use Rattle.vm_step.specs.Steady.{is_steady, next_action};
ghost use Rattle.vm_frames.specs.Lying.{AllLie};
ghost use Rattle.vm_typed.specs.Telling.{StepTells};

use crate::program::{class_at, max_locals, method_at};
use crate::quiet::steps_alone;
use crate::step::take_step;
use crate::step_typed::take_typed_step;
use crate::typed::steps_typed;
use crate::waits::waits;
use mg_text::{List, Memory, Text};
use raw_stack::RawStack;
use std::alloc::Global;
use std::marker::Model;
use vm_flat::FlatProgram;
use vm_frames::{Cell, State};
use vm_model::{Linked, LinkedClass, LinkedMethod, Ports};
use vm_session::Stepped;
use vm_typed::{Telling, tell};

/// A machine that runs a linked program. Contracts see its frames and its objects.
pub struct Machine {
    state: State,
}

// One call lets go of it, wherever a function ends.
impl Drop for Machine {
    fn drop(self) {
        let Machine { state: _ } = self;
    }
}

impl Model for Machine {
    ghost use Rattle.vm_frames.specs.Seen.{Seen};

    ghost Value = { Seen };

    ghost view = { λ m. m.state };
}

/// Whether this is `static void main(String[])`.
fn is_main(method: &LinkedMethod) -> bool
    ensures { result ≡ is_main (method_of method.now) }
{
    method.name.as_str() == "main"
        && method.is_static
        && method.descriptor.as_str() == "([Ljava/lang/String;)V"
}

/// The place of the first `main`.
fn main_place(methods: &[LinkedMethod]) -> Option<usize>
    ensures place { result ≡ position (λ m. is_main (method_of m)) methods.now }
    ensures within { IfSome result (λ i. i < length methods.now) }
{
    methods.iter().position(|method| is_main(method))
}

/// The number of the first `main` of a class.
fn main_in(linked: &Linked, class: u32) -> Option<u32>
    ensures { result ≡ main_in (program.class_at linked.now class) }
{
    let Some(class) = class_at(linked, class) else {
        return None;
    };
    match main_place(class.methods.as_slice()) {
        Some(place) => Some(place as u32),
        None => None,
    }
}

/// The place of the first class of this name.
fn named_place(classes: &[LinkedClass], name: &str) -> Option<usize>
    ensures place { result ≡ position (λ c. bytes_eq c.name name.now) classes.now }
    ensures within { IfSome result (λ i. i < length classes.now) }
{
    classes.iter().position(|class| class.name.as_str() == name)
}

/// The number of the first class of this name.
fn class_named(linked: &Linked, name: &str) -> Option<u32>
    ensures { result ≡ class_named linked.now name.now }
{
    match named_place(linked.classes(), name) {
        Some(place) => Some(place as u32),
        None => None,
    }
}

/// Whether the program has a class of this name with a `static void main(String[])`.
pub fn has_main(linked: &Linked, main: &str) -> bool
    ensures { IsTrue result ↔ HasMain linked.now main.now }
{
    match class_named(linked, main) {
        Some(class) => main_in(linked, class).is_some(),
        None => false,
    }
}

/// The state at the beginning of a method.
fn started(alloc: Global, linked: &Linked, class: u32, method: u32) -> Result<State, Memory>
    ensures { IfOk result (λ s. state_of s ≡ started linked.now class method) }
{
    let locals = max_locals(method_at(linked, class, method)) as u16;
    State::start(alloc, linked, class, method, locals)
}

/// The state at the `main` of a class.
fn start(alloc: Global, linked: &Linked, main: &str) -> Result<State, Memory>
    requires { HasMain linked.now main.now }
    ensures { IfOk result (λ s. IsStart linked.now main.now (state_of s)) }
{
    let Some(class) = class_named(linked, main) else {
        unreachable!()
    };
    let Some(method) = main_in(linked, class) else {
        unreachable!()
    };
    started(alloc, linked, class, method)
}

impl Machine {
    /// The frames, in one region: an empty one, and on it those of the machine, the running one last.
    /// The cells of each are its locals, and then its operands; a text stands in a cell by its place
    /// in `texts`.
    pub fn frames(&self) -> &RawStack<Cell>
        ensures { AllLie self.now.texts (self.now.machine.frame ∷ self.now.machine.callers) (result.now.running ∷ result.now.callers) }
    {
        self.state.frames()
    }

    /// The texts that cells number.
    pub fn texts(&self) -> &List<Text>
        ensures { result.now.items ≡ self.now.texts }
    {
        self.state.texts()
    }

    /// A machine at the first `static void main(String[])` of the first class of this name, which
    /// has one: one frame, whose locals are unset, and no objects.
    ///
    /// # Errors
    /// `Memory` only.
    pub fn start(alloc: Global, linked: &Linked, main: &str) -> Result<Machine, Memory>
        requires { HasMain linked.now main.now }
        ensures { IfOk result (λ m. IsStart linked.now main.now m.machine) }
    {
        let state = start(alloc, linked, main)?;
        Ok(Machine { state })
    }

    /// Takes frequent steps with which nothing is wrong, at most so many, and answers how many they
    /// were: steps that tell nothing and look at no message. Only a call takes memory, and where it
    /// lacks the call isn't among them.
    pub fn steps_alone(&mut self, linked: &Linked, most: u32) -> u32
        ensures most { result ≤ most }
        ensures steps { AllAlone linked.now self.old.machine result self.new.machine }
    {
        steps_alone(&mut self.state, linked, most)
    }

    /// Takes such steps of a typable program, those that its flat code has without tests of what typing says, and answers how many
    /// they were. It stops where neither they nor the tested ones go on.
    pub fn steps_typed(&mut self, linked: &Linked, flat: &FlatProgram, most: u32) -> u32
        requires typable { AllTypable linked.now }
        requires flat { IsFlatOf flat.now linked.now }
        requires sound { Sound linked.now self.old.machine }
        ensures most { result ≤ most }
        ensures steps { AllAlone linked.now self.old.machine result self.new.machine }
        ensures sound { Sound linked.now self.new.machine }
    {
        steps_typed(&mut self.state, linked, flat, most)
    }

    /// Takes the next step of a typable program where it begins a protocol method of an object or leaves one, and answers what it
    /// tells. It takes no memory: a null object, want of room and everything else change nothing, and are left to `step`.
    pub fn tell(&mut self, linked: &Linked, flat: &FlatProgram) -> Option<Telling>
        requires typable { AllTypable linked.now }
        requires flat { IsFlatOf flat.now linked.now }
        requires sound { Sound linked.now self.old.machine }
        ensures { StepTells linked.now self.old.machine self.new.machine result }
    {
        tell(&mut self.state, linked, flat)
    }

    /// Takes a step of the role `me`: the next instruction's tests in their order, and then what it
    /// does (JVMS chapter 6). A step that waits, or that ends the run, changes neither the machine
    /// nor the messages; so a mismatch takes none.
    ///
    /// Constants that are no texts, locals, operands, arithmetic, jumps, fields and returns need no memory.
    ///
    /// # Errors
    /// `Memory` only, and then neither has changed.
    pub fn step(
        &mut self,
        alloc: Global,
        linked: &Linked,
        ports: &mut Ports,
        me: u32,
    ) -> Result<Stepped, Memory>
        ensures ok { IfOk result (λ s. Does (model.step linked.now me self.old.machine ports.old)
            self.old.machine ports.old self.new.machine ports.new s) }
        ensures err { OnErr result (self.new.machine ≡ self.old.machine) }
        ensures err_ports { OnErr result (ports.new ≡ ports.old) }
        ensures steady { OnErr result (is_steady (next_action linked.now self.old.machine) ≡ false) }
    {
        take_step(&mut self.state, alloc, linked, ports, me)
    }

    /// Takes a step as `step` does, of a machine that fits the typings of its program: calls, returns, makings and members of built-in
    /// classes aren't tested again.
    ///
    /// # Errors
    /// `Memory` only, and then neither the machine nor the messages have changed.
    pub fn step_typed(
        &mut self,
        alloc: Global,
        linked: &Linked,
        ports: &mut Ports,
        me: u32,
    ) -> Result<Stepped, Memory>
        requires typable { AllTypable linked.now }
        requires sound { Sound linked.now self.old.machine }
        ensures ok { IfOk result (λ s. Does (model.step linked.now me self.old.machine ports.old)
            self.old.machine ports.old self.new.machine ports.new s) }
        ensures err { OnErr result (self.new.machine ≡ self.old.machine) }
        ensures err_ports { OnErr result (ports.new ≡ ports.old) }
        ensures steady { OnErr result (is_steady (next_action linked.now self.old.machine) ≡ false) }
    {
        take_typed_step(&mut self.state, alloc, linked, ports, me)
    }

    /// The role for whose message the next instruction waits: exactly where a step would wait for
    /// it. Nothing is allocated and nothing changes.
    pub fn waits(&self, linked: &Linked, ports: &Ports, me: u32) -> Option<u32>
        ensures { result ≡ waits_in (model.step linked.now me self.now.machine ports.now) }
    {
        waits(&self.state, linked, ports, me)
    }
}
