//! The methods that the server knows, by their names.

ghost use Rattle.std.specs.Prelude.{◌≡◌};
ghost use Rattle.lsp_json.specs.Methods.{asked_by, told_by};

// What a request asks for.
pub(crate) enum Asked {
    Initialize,
    Shutdown,
    Hover,
    Completion,
    Definition,
    Hints,
    Symbols,
    Command,
    Unknown,
}

// What a notification tells.
pub(crate) enum Told {
    Initialized,
    Open,
    Change,
    Save,
    Close,
    Exit,
    Cancel,
    Unknown,
}

// What the method of a request asks for.
pub(crate) fn asked_for(name: &str) -> Asked
    ensures { result ≡ asked_by name.now }
{
    if name == "initialize" {
        Asked::Initialize
    } else if name == "shutdown" {
        Asked::Shutdown
    } else if name == "textDocument/hover" {
        Asked::Hover
    } else if name == "textDocument/completion" {
        Asked::Completion
    } else if name == "textDocument/definition" {
        Asked::Definition
    } else if name == "textDocument/inlayHint" {
        Asked::Hints
    } else if name == "textDocument/documentSymbol" {
        Asked::Symbols
    } else if name == "workspace/executeCommand" {
        Asked::Command
    } else {
        Asked::Unknown
    }
}

// What the method of a notification tells.
pub(crate) fn told_of(name: &str) -> Told
    ensures { result ≡ told_by name.now }
{
    if name == "initialized" {
        Told::Initialized
    } else if name == "textDocument/didOpen" {
        Told::Open
    } else if name == "textDocument/didChange" {
        Told::Change
    } else if name == "textDocument/didSave" {
        Told::Save
    } else if name == "textDocument/didClose" {
        Told::Close
    } else if name == "exit" {
        Told::Exit
    } else if name == "$/cancelRequest" {
        Told::Cancel
    } else {
        Told::Unknown
    }
}
