//! The outside of the program: folders of files, and sinks that take bytes.
//! Two fakes in memory tell what they hold; two adapters reach the real files and streams.
#![tactic(auto)]

mod beside;
mod fault;
mod file_list;
mod folder;
mod front;
mod host_folder;
mod host_sink;
mod mem_folder;
mod mem_sink;
mod number_list;
mod refusal;
mod refused_names;
mod sink;
mod whole;

pub use fault::IoFault;
pub use file_list::FileList;
pub use folder::Folder;
pub use host_folder::HostFolder;
pub use host_sink::HostSink;
pub use mem_folder::MemFolder;
pub use mem_sink::MemSink;
pub use number_list::NumberList;
pub use sink::Sink;
