//! What roles that follow their projections do together is a conversation of the global protocol.
//! There is no running code here; the function carries a law.
#![tactic(auto)]

ghost use Rattle.scr_faithful.specs.Astray.{SomeGoAstray};
ghost use Rattle.scr_faithful.specs.Faithful.{CleanIsGuarded, CompleteIsConversation, EachHasDoneItsPart};
ghost use Rattle.scr_faithful.specs.Heard.{EachHasDoneAPart};
ghost use Rattle.scr_faithful.specs.Leaving.{LeftCanEnd};
ghost use Rattle.scr_faithful.specs.Examples.{AdderCanEnd, NoneIsForgottenForEver};

/// Where every role is complete and every list is empty, the messages that the roles have sent and taken are those of a complete
/// conversation of the global protocol. Where each conversation can be brought to an end, each role has at each moment done a part of
/// what it does in one complete conversation, and can do what is missing.
pub fn roles_converse()
    ensures complete { CompleteIsConversation }
    ensures part { EachHasDoneItsPart }
    ensures heard { EachHasDoneAPart }
    ensures clean { CleanIsGuarded }
    ensures left { LeftCanEnd }
{}

/// Without an end in reach, what roles do may be no part of a conversation: an example.
pub fn some_go_astray()
    ensures { SomeGoAstray }
{}

/// The premises can be met: two examples.
pub fn premises_are_met()
    ensures ends { AdderCanEnd }
    ensures heard { NoneIsForgottenForEver }
{}
