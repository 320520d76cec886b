//! Roles that play a global protocol, each by one object of the class that is generated of its projection, never get stuck.
//! There is no running code here; the functions carry laws, from the next acts of a role on to runs of sources.
#![tactic(auto)]

ghost use Rattle.fit_law.specs.Conversed.{RestIsConversation, RestIsFinished, TurnsAreConfigurations, TurnsAreInConversation, TurnsGoOnInConversation};
ghost use Rattle.fit_law.specs.Fit.{NoneGetsStuck};
ghost use Rattle.fit_law.specs.Next.{NextIsAlike};
ghost use Rattle.fit_law.specs.Play.{ApiIsHad, NoneGetsStuckIn, RunsEndWell, TurnsAreReached, TurnsActByOne, TurnsConverse, TurnsGoOn};
ghost use Rattle.fit_law.specs.Same.{SameAreLocals};

/// At each moment the next acts of a role are alike: one message that is taken, sends, or looks at one choice of one peer.
pub fn next_is_alike()
    ensures { NextIsAlike }
{}

/// After every list of turns no role has ended but by its return or a zero divisor; and where the world rests, and no
/// role ended by a zero divisor, every role has returned, no message is left, and each role has acted by one object,
/// which is at the end of its protocol.
pub fn none_gets_stuck()
    ensures { NoneGetsStuck }
{}

/// Where each conversation of the global protocol can be brought to an end, what the roles have sent and taken is at
/// each moment a part of a complete one, and each role can do the rest. Where the world rests, and no role ended by a
/// zero divisor, what they have sent and taken are the messages of a complete conversation of the global protocol.
pub fn rest_is_conversation()
    ensures rest { RestIsConversation }
    ensures turns { TurnsAreInConversation }
    ensures on { TurnsGoOnInConversation }
{}

/// After every list of turns what the roles have done, with the messages on their way, is a configuration that steps
/// of their protocols reach from the start, and on the way each role does what it has done. Where the world rests,
/// and no role ended by a zero divisor, each has done a complete run of its protocol.
pub fn turns_are_configurations()
    ensures turns { TurnsAreConfigurations }
    ensures rest { RestIsFinished }
{}

/// Valid local protocols that differ from projections in places at most, as those that are read back from written files, are
/// what the roles do in the same global protocol.
pub fn same_are_locals()
    ensures { SameAreLocals }
{}

/// Where the `main` of each role makes one object of the role's class, behind statements that hold no `return`, and
/// no other code uses `Session`, makes such an object or calls a `main`: after every list of turns no role has ended
/// but by its return or a zero divisor; and where the world rests, and no role ended by a zero divisor, every role
/// has returned, no message is left, each role has acted by one object, which is at the end of its protocol, each
/// role has done a complete run of it, and what was sent and taken is a complete conversation of the global protocol.
pub fn none_gets_stuck_in()
    ensures { NoneGetsStuckIn }
{}

/// So a run in an order of turns ends with every role returned, no message left, each object at the end of its
/// protocol, and a complete conversation said; or some role has ended by a zero divisor; or the limit of instructions
/// is reached before the world rests.
pub fn runs_end_well()
    ensures { RunsEndWell }
{}

/// A program that holds the generated files has what is generated.
pub fn api_is_had()
    ensures { ApiIsHad }
{}

/// At each moment what the roles have done, with the messages on their way, is a configuration that steps of their
/// protocols reach from the start. Where each conversation can be brought to an end, what was sent and taken is part
/// of a complete one, and each role can do the rest; where no role is forgotten, of one that needn't come to an end.
/// One object has done all that a role has sent, looked at and taken.
pub fn turns_converse()
    ensures one { TurnsActByOne }
    ensures reached { TurnsAreReached }
    ensures end { TurnsConverse }
    ensures on { TurnsGoOn }
{}
