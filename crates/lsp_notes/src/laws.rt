//! Laws of what is told. Each function carries one, and does nothing.

ghost use Rattle.lsp_notes.specs.Once.{EachIsToldOnce, NothingElseIsTold, AsManyAreTold, NothingIsTold};

/// Each refusal is told in exactly one file.
pub fn each_is_told_once()
    ensures { EachIsToldOnce }
{}

/// Each diagnostic is of a refusal, and there are as many as refusals.
pub fn nothing_else_is_told()
    ensures of { NothingElseIsTold }
    ensures many { AsManyAreTold }
{}

/// Where nothing is refused nothing is told.
pub fn nothing_is_told()
    ensures { NothingIsTold }
{}
