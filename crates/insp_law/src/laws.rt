//! The law of runs; there is no running code here.

ghost use Rattle.insp_law.specs.Laws.{Example, RightIsPath, RunsAreSafe};

/// Where no demand fails in a reached frame, then in every run the calls of each object are a path of its typestate up
/// to the first throw that came upon it and from `thrown` behind that, calls of protocols are on objects, no object is
/// handed out or thrown, what is given back outside is new or isn't followed, and an object that no frame has behind a
/// step may be left.
pub fn runs_are_safe()
    ensures { RunsAreSafe }
{}

/// The calls of an object that no throw came upon are a path of its typestate.
pub fn right_is_path()
    ensures { RightIsPath }
{}

/// Some program is inspected that hands an object to a method of its own, goes by what it answers, catches a throw, takes
/// an object that may be null, and is called back.
pub fn one_is_inspected()
    ensures { Example }
{}
