//! Answers on what protocols offer call by call, their typestates and their APIs.

use cases::{Answer, files_of};
use mg_text::{List, Memory, Text};
use scr_read::{Local, read_local};
use scr_trace::{Call, Offer, Walk};
use std::alloc::Global;
use stm_api::{ApiFile, api};
use stm_gen::generate;
use ts_read::print_typestate;

/// The text of the typestate of a protocol.
pub fn typestate_text(alloc: Global, local: &Local) -> Result<Text, Memory> {
    let typestate = generate(alloc, local)?;
    print_typestate(alloc, &typestate)
}

/// The name and text of each file of the API of a protocol.
pub fn add_api(alloc: Global, answer: &mut Answer, local: &Local) -> Result<(), Memory> {
    for file in files_of_api(alloc, local)?.as_slice() {
        answer.pair(">>> ", file.name.as_str());
        answer.pair("\n", file.text.as_str());
    }
    Ok(())
}

fn files_of_api(alloc: Global, local: &Local) -> Result<List<ApiFile>, Memory> {
    api(alloc, local)
}

/// What a protocol offers, and for each call of the second file, a method and its label if there
/// is one: whether it is taken, whether nothing is left to do, and what is offered then.
pub fn walked(alloc: Global, answer: &mut Answer, given: &str) -> Result<(), Memory> {
    let files = files_of(alloc, given)?;
    let [file, calls] = files.as_slice() else {
        answer.add("not two files");
        return Ok(());
    };
    add_walked(alloc, answer, file.text, calls.text)
}

fn add_walked(alloc: Global, answer: &mut Answer, text: &str, calls: &str) -> Result<(), Memory> {
    match read_local(alloc, 0, text.as_bytes()) {
        Ok(local) => add_walk(alloc, answer, &local, calls),
        Err(fault) => {
            answer.fault(&fault);
            Ok(())
        }
    }
}

// What is offered at first, and then a line for each call.
fn add_walk(alloc: Global, answer: &mut Answer, local: &Local, calls: &str) -> Result<(), Memory> {
    let mut walk = Walk::new(alloc, local)?;
    answer.add("begins:");
    add_offers(answer, &walk)?;
    for call in calls.lines() {
        add_step(answer, &mut walk, call)?;
    }
    Ok(())
}

fn add_step(answer: &mut Answer, walk: &mut Walk<'_>, call: &str) -> Result<(), Memory> {
    let stepped = walk.step(&call_of(call));
    answer.add("\n");
    answer.tell(&stepped);
    answer.add(" ");
    answer.tell(&walk.done());
    answer.add(":");
    add_offers(answer, walk)
}

// A method, and behind a blank the label with which it answers.
fn call_of(call: &str) -> Call<'_> {
    match call.split_once(' ') {
        None => Call {
            method: call,
            answer: None,
        },
        Some((method, label)) => Call {
            method,
            answer: Some(label),
        },
    }
}

// What a walk offers: each method, and behind it its labels.
fn add_offers(answer: &mut Answer, walk: &Walk<'_>) -> Result<(), Memory> {
    for offer in offers_of(walk)?.as_slice() {
        add_offer(answer, offer);
    }
    Ok(())
}

fn add_offer(answer: &mut Answer, offer: &Offer) {
    answer.pair(" ", offer.method.as_str());
    for label in offer.answers.as_slice() {
        answer.pair("/", label.as_str());
    }
}

fn offers_of(walk: &Walk<'_>) -> Result<List<Offer>, Memory> {
    walk.offers()
}
