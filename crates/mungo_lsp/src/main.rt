//! The program mungo-lsp: the language server over standard input and standard output, with the host's files. How serving
//! ends is the exit status.
#![tactic(auto)]

ghost use Rattle.std.specs.Prelude.{◌≡◌, None};
ghost use Rattle.std.specs.Process.{exit_status};
ghost use Rattle.lsp_serving.specs.declared.ending.Ending.{Ending as Kept};
ghost use Rattle.lsp_serving.specs.Endings.{number_of, IsServed};

mod host_folders;

use crate::host_folders::HostFolders;
use lsp_serving::{Ending, serve};
use mg_io::HostSink;
use std::alloc::Global;
use std::io::{Stdin, Stdout};
use std::process::ExitCode;
use std::rt::Files;

fn main(rt: HostRuntime) -> ExitCode {
    let mut input = rt.stdin();
    let mut folders = HostFolders::new(&rt);
    let mut sink = HostSink::new(rt.stdout());
    hosted(rt.alloc(), &mut input, &mut folders, &mut sink)
}

// Serves over the host's streams and folders, which tell nothing beforehand, and ends with the number of the ending.
fn hosted<R: Files + AllocGlobal + Clone + Drop>(
    alloc: Global,
    input: &mut Stdin,
    folders: &mut HostFolders<'_, R>,
    sink: &mut HostSink<Stdout>,
) -> ExitCode
    ensures { (ending : Kept) × (exit_status result ≡ number_of ending) × IsServed (λ _. None) None None None None ending }
{
    let ending = serve(alloc, input, folders, sink);
    exit_code(ending)
}

// The exit status is the number of the ending.
fn exit_code(ending: Ending) -> ExitCode
    ensures { exit_status result ≡ number_of ending }
{
    ExitCode::from(ending.number())
}
