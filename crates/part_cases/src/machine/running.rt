//! What machines do, step by step, in a run with no other roles.

use cases::Answer;
use cls_tree::Class;
use mg_text::Memory;
use std::alloc::Global;
use vm_load::load;
use vm_model::{Linked, Ports};
use vm_step::{Machine, Stepped, has_main};

/// Tells what the `main` of a class does in so many steps, or what is wrong with the class.
pub fn tell_class(
    alloc: Global,
    answer: &mut Answer,
    class: Class,
    steps: u32,
) -> Result<(), Memory> {
    match load(alloc, &[class]) {
        Ok(linked) => tell_run(alloc, answer, &linked, steps),
        Err(fault) => {
            answer.tell(&fault);
            Ok(())
        }
    }
}

fn tell_run(alloc: Global, answer: &mut Answer, linked: &Linked, steps: u32) -> Result<(), Memory> {
    if !has_main(linked, "Hello") {
        answer.add("no main");
        return Ok(());
    }
    let ports = no_ports(alloc)?;
    let machine = Machine::start(alloc, linked, "Hello")?;
    let mut run = Run {
        linked,
        machine,
        ports,
    };
    run.tell(alloc, answer, steps)
}

// No roles.
fn no_ports(alloc: Global) -> Result<Ports, Memory> {
    Ports::new(alloc, &[])
}

/// A run of one role.
#[derive(Drop)]
struct Run<'a> {
    linked: &'a Linked,
    machine: Machine,
    ports: Ports,
}

impl<'a> Run<'a> {
    // Tells what each step does, up to the one that ends the run.
    fn tell(&mut self, alloc: Global, answer: &mut Answer, steps: u32) -> Result<(), Memory> {
        for step in 0..steps {
            if self.tell_next(alloc, answer, step)? {
                return Ok(());
            }
        }
        begin(answer, steps);
        answer.add("goes on");
        Ok(())
    }

    // Takes a step, tells what it does, and answers whether it ended the run.
    fn tell_next(&mut self, alloc: Global, answer: &mut Answer, step: u32) -> Result<bool, Memory> {
        if self.is_to_wait() {
            begin(answer, step);
            answer.add("is to wait");
        }
        let stepped = self.take_step(alloc)?;
        Ok(tell_step(answer, step, &stepped))
    }

    fn is_to_wait(&self) -> bool {
        self.machine.waits(self.linked, &self.ports, 0).is_some()
    }

    fn take_step(&mut self, alloc: Global) -> Result<Stepped, Memory> {
        self.machine.step(alloc, self.linked, &mut self.ports, 0)
    }
}

// Begins the line of the step of this number.
fn begin(answer: &mut Answer, step: u32) {
    answer.line();
    answer.show(&step);
    answer.add(": ");
}

// Tells what a step did, where that is seen, and answers whether it ended the run.
fn tell_step(answer: &mut Answer, step: u32, stepped: &Stepped) -> bool {
    if let Stepped::Went(None) = stepped {
        return false;
    }
    begin(answer, step);
    answer.tell(stepped);
    matches!(stepped, Stepped::Ended(_))
}
