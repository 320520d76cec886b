//! What class files a resolved program is compiled to: templates, frames, pool and limits.
//! There is no running code here; each function carries a law.
#![tactic(auto)]

ghost use Rattle.gen_rules.specs.Laws.{OneCode, TypesAgree, WordsAreKnown};
ghost use Rattle.gen_rules.specs.examples.Hello.{HelloIsMade};
ghost use Rattle.gen_rules.specs.examples.Methods.{MethodsAreMade};

/// The templates allow one code for each method and one list of class files for each program.
/// The types that they look at are those of well typed expressions, and the words in which they
/// are written are those of the class file format.
pub fn templates_decide()
    ensures code { OneCode }
    ensures types { TypesAgree }
    ensures words { WordsAreKnown }
{}

/// The class file of a program that prints a text, byte by byte, and the codes of worked methods.
pub fn examples_are_made()
    ensures hello { HelloIsMade }
    ensures methods { MethodsAreMade }
{}
