//! The built-in classes and their members: what class files call them, and by which opcode each member is used.
//! One table, a row for each member.

ghost use Rattle.std.specs.Prelude.{◌≡◌};
ghost use Rattle.vm_model.specs.BuiltIns.{built_member, session_class};
ghost use Rattle.vm_model.specs.BuiltLaws.{MembersDoAsDescribed};
ghost use Rattle.vm_model.specs.Linked.{is_built_in};
ghost use Rattle.vm_model.specs.View.{built_view};

use crate::linked::Built;
use cls_tree::opcodes::{GETSTATIC, INVOKESPECIAL, INVOKESTATIC, INVOKEVIRTUAL};

/// The class of all objects.
pub const OBJECT_CLASS: &str = "java/lang/Object";

/// The class of texts.
pub const STRING_CLASS: &str = "java/lang/String";

/// The class that has the stream of what is printed.
pub const SYSTEM_CLASS: &str = "java/lang/System";

/// The class of that stream.
pub const PRINT_STREAM_CLASS: &str = "java/io/PrintStream";

/// The class through which a role speaks with its peers.
pub const SESSION_CLASS: &str = "mungo/lib/Session";

/// Whether this is the name of a built-in class.
pub fn is_built_in(name: &str) -> bool
    ensures { result ≡ is_built_in name.now }
{
    name == OBJECT_CLASS
        || name == STRING_CLASS
        || name == SYSTEM_CLASS
        || name == PRINT_STREAM_CLASS
        || name == SESSION_CLASS
}

/// How references name a member of a built-in class, and the opcode that uses it.
#[derive(Clone, Copy)]
pub struct BuiltMember {
    pub class: &'static str,
    pub name: &'static str,
    pub descriptor: &'static str,
    pub op: u8,
}

/// A member of a class.
fn row(class: &'static str, name: &'static str, descriptor: &'static str, op: u8) -> BuiltMember
    ensures { built_view result ≡ record { class = class.now; name = name.now; descriptor = descriptor.now; op = op } }
{
    BuiltMember {
        class,
        name,
        descriptor,
        op,
    }
}

/// A method that is called on an object.
fn on(class: &'static str, name: &'static str, descriptor: &'static str) -> BuiltMember
    ensures { built_view result ≡ record { class = class.now; name = name.now; descriptor = descriptor.now; op = INVOKEVIRTUAL } }
{
    row(class, name, descriptor, INVOKEVIRTUAL)
}

/// A method that is called on none.
fn statically(class: &'static str, name: &'static str, descriptor: &'static str) -> BuiltMember
    ensures { built_view result ≡ record { class = class.now; name = name.now; descriptor = descriptor.now; op = INVOKESTATIC } }
{
    row(class, name, descriptor, INVOKESTATIC)
}

/// A method of `Session`.
fn session(name: &'static str, descriptor: &'static str) -> BuiltMember
    ensures { built_view result ≡ record { class = session_class; name = name.now; descriptor = descriptor.now; op = INVOKESTATIC } }
{
    statically(SESSION_CLASS, name, descriptor)
}

impl Built {
    /// The members of the built-in classes.
    pub const ALL: [Built; 17] = [
        Built::Out,
        Built::Init,
        Built::Concat,
        Built::Equals,
        Built::ValueOfInt,
        Built::ValueOfTruth,
        Built::Println,
        Built::Send,
        Built::SendInt,
        Built::SendTruth,
        Built::SendText,
        Built::Look,
        Built::Take,
        Built::TakeInt,
        Built::TakeTruth,
        Built::TakeText,
        Built::Refuse,
    ];

    /// How references name this member, and the opcode that uses it.
    pub fn member(self) -> BuiltMember
        ensures { built_view result ≡ built_member self }
    {
        match self {
            Built::Out => row(SYSTEM_CLASS, "out", "Ljava/io/PrintStream;", GETSTATIC),
            Built::Init => row(OBJECT_CLASS, "<init>", "()V", INVOKESPECIAL),
            Built::Concat => on(
                STRING_CLASS,
                "concat",
                "(Ljava/lang/String;)Ljava/lang/String;",
            ),
            Built::Equals => on(STRING_CLASS, "equals", "(Ljava/lang/Object;)Z"),
            Built::ValueOfInt => statically(STRING_CLASS, "valueOf", "(I)Ljava/lang/String;"),
            Built::ValueOfTruth => statically(STRING_CLASS, "valueOf", "(Z)Ljava/lang/String;"),
            Built::Println => on(PRINT_STREAM_CLASS, "println", "(Ljava/lang/String;)V"),
            Built::Send => session("send", "(Ljava/lang/String;Ljava/lang/String;)V"),
            Built::SendInt => session("sendInt", "(Ljava/lang/String;Ljava/lang/String;I)V"),
            Built::SendTruth => session("sendBoolean", "(Ljava/lang/String;Ljava/lang/String;Z)V"),
            Built::SendText => session(
                "sendString",
                "(Ljava/lang/String;Ljava/lang/String;Ljava/lang/String;)V",
            ),
            Built::Look => session("look", "(Ljava/lang/String;)Ljava/lang/String;"),
            Built::Take => session("take", "(Ljava/lang/String;Ljava/lang/String;)V"),
            Built::TakeInt => session("takeInt", "(Ljava/lang/String;Ljava/lang/String;)I"),
            Built::TakeTruth => session("takeBoolean", "(Ljava/lang/String;Ljava/lang/String;)Z"),
            Built::TakeText => session(
                "takeString",
                "(Ljava/lang/String;Ljava/lang/String;)Ljava/lang/String;",
            ),
            Built::Refuse => session("refuse", "(Ljava/lang/String;Ljava/lang/String;)V"),
        }
    }
}

/// The law of this table: what the machine takes and gives for a member is what its descriptor says.
pub fn members_do_as_described()
    ensures { MembersDoAsDescribed }
{}
