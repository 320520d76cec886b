//! The cases of the commands of mungo: files in `data/`. Each command is run over a folder and sinks
//! in memory. A case whose answer isn't what is wanted is told, and behind each file how many it has.
#![tactic(auto)]

mod commands;

use cases::CasesFault;

fn main(rt: HostRuntime) -> Result<(), CasesFault> {
    commands::tell_all(&rt)
}
