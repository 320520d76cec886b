//! What is written in typestate files: states and their entries with the places of names.

use cases::Answer;
use mg_read::ParseFault;
use std::alloc::Global;
use ts_parse::{
    Naming, WrittenEntry, WrittenMethod, WrittenState, WrittenTarget, WrittenTypestate,
    read_written, tokens,
};

/// A line for each state and each entry of a file, or where its tokens begin no file.
pub fn written(alloc: Global, answer: &mut Answer, given: &[u8]) {
    if given.len() > 1000 {
        return answer.add("too long");
    }
    let found = match tokens(alloc, 3, given) {
        Ok(found) => found,
        Err(fault) => return answer.tell(&fault),
    };
    match read_written(alloc, found.as_slice()) {
        Ok(file) => add_file(answer, &file),
        Err(fault) => add_refused(answer, fault),
    }
}

// Where the token stands that no file goes on with.
fn add_refused(answer: &mut Answer, fault: ParseFault) {
    match fault {
        ParseFault::Syntax(Some(place)) => {
            answer.add("Syntax ");
            answer.place(place);
        }
        ParseFault::Syntax(None) => answer.add("Syntax at the end"),
        ParseFault::Memory => answer.fail(),
    }
}

fn add_file(answer: &mut Answer, file: &WrittenTypestate) {
    answer.add(file.name.as_str());
    for state in file.states.as_slice() {
        add_state(answer, state);
    }
}

fn add_state(answer: &mut Answer, state: &WrittenState) {
    answer.add("\n");
    add_naming(answer, &state.name);
    for entry in state.entries.as_slice() {
        add_entry(answer, entry);
    }
}

fn add_naming(answer: &mut Answer, name: &Naming) {
    answer.pair(name.text.as_str(), " ");
    answer.place(name.place);
}

fn add_entry(answer: &mut Answer, entry: &WrittenEntry) {
    match entry {
        WrittenEntry::Method(method) => add_method(answer, method),
        WrittenEntry::DropEnd(place) => {
            answer.add("\n  drop: end ");
            answer.place(*place);
        }
    }
}

fn add_method(answer: &mut Answer, method: &WrittenMethod) {
    answer.add("\n  ");
    answer.tell(&method.result);
    answer.add(" ");
    add_naming(answer, &method.name);
    answer.add(" ");
    answer.tell(&method.params.as_slice());
    add_target(answer, &method.target);
}

fn add_target(answer: &mut Answer, target: &WrittenTarget) {
    match target {
        WrittenTarget::One(to) => {
            answer.add(" to ");
            add_naming(answer, to);
        }
        WrittenTarget::ByAnswer(branches) => {
            for branch in branches.as_slice() {
                answer.add(" ");
                add_naming(answer, &branch.label);
                answer.add(" to ");
                add_naming(answer, &branch.to);
            }
        }
    }
}
