//! The cases of the parts of mungo: files in `data/`, each with its kind of answer, in three areas.
//! What is read, printed, walked, projected and refined; class files and machines; programs,
//! whether they are well typed, their cores and their usages. A case whose answer isn't what is wanted
//! is told, and behind each file how many it has.
#![tactic(auto)]

mod machine;
mod programs;
mod reading;
mod sources;

use cases::CasesFault;

fn main(rt: HostRuntime) -> Result<(), CasesFault> {
    reading::tell_all(&rt)?;
    machine::tell_all(&rt)?;
    programs::tell_all(&rt)
}
