//! The methods that every program has: those of the class `Session`, through which a role speaks with its peers, and those of texts.
//! One table, a row for each method, as sources know it; the machine's names of the same methods stand in its own.

ghost use Rattle.std.specs.Prelude.{◌≡◌};
ghost use Rattle.jv_tree.specs.BuiltIn.{session_method, session_named, text_method, text_named, method_seen};

/// A type that means the same in each program.
#[derive(Clone, Copy, PartialEq, Eq)]
pub enum PlainType {
    /// That of no value.
    Void,
    Int,
    Boolean,
    /// Java's String.
    Text,
}

/// A method that every program has.
#[derive(Clone, Copy)]
pub struct PlainMethod {
    pub name: &'static str,
    /// The types of its parameters.
    pub params: &'static [PlainType],
    pub result: PlainType,
}

/// A method of the class `Session`.
#[derive(Clone, Copy, Debug, PartialEq, Eq)]
pub enum SessionCall {
    Send,
    SendInt,
    SendBoolean,
    SendString,
    Look,
    Take,
    TakeInt,
    TakeBoolean,
    TakeString,
    Refuse,
}

/// A method of texts.
#[derive(Clone, Copy, PartialEq, Eq)]
pub enum TextCall {
    Equals,
    Concat,
}

/// A row of the table.
fn row(name: &'static str, params: &'static [PlainType], gives: PlainType) -> PlainMethod
    ensures { method_seen result ≡ record { name = name.now; params = params.now; result = gives } }
{
    PlainMethod {
        name,
        params,
        result: gives,
    }
}

impl SessionCall {
    /// The methods of `Session`.
    pub const ALL: [SessionCall; 10] = [
        SessionCall::Send,
        SessionCall::SendInt,
        SessionCall::SendBoolean,
        SessionCall::SendString,
        SessionCall::Look,
        SessionCall::Take,
        SessionCall::TakeInt,
        SessionCall::TakeBoolean,
        SessionCall::TakeString,
        SessionCall::Refuse,
    ];

    /// The name of this method, and what it takes and gives.
    pub fn method(self) -> PlainMethod
        ensures { method_seen result ≡ session_method self }
    {
        use PlainType::{Boolean, Int, Text, Void};
        match self {
            SessionCall::Send => row("send", &[Text, Text], Void),
            SessionCall::SendInt => row("sendInt", &[Text, Text, Int], Void),
            SessionCall::SendBoolean => row("sendBoolean", &[Text, Text, Boolean], Void),
            SessionCall::SendString => row("sendString", &[Text, Text, Text], Void),
            SessionCall::Look => row("look", &[Text], Text),
            SessionCall::Take => row("take", &[Text, Text], Void),
            SessionCall::TakeInt => row("takeInt", &[Text, Text], Int),
            SessionCall::TakeBoolean => row("takeBoolean", &[Text, Text], Boolean),
            SessionCall::TakeString => row("takeString", &[Text, Text], Text),
            SessionCall::Refuse => row("refuse", &[Text, Text], Void),
        }
    }

    /// The method of `Session` of this name.
    pub fn named(name: &str) -> Option<SessionCall>
        ensures { result ≡ session_named name.now }
    {
        for call in &SessionCall::ALL {
            if call.method().name == name {
                return Some(*call);
            }
        }
        None
    }
}

impl TextCall {
    /// The methods of texts.
    pub const ALL: [TextCall; 2] = [TextCall::Equals, TextCall::Concat];

    /// The name of this method, and what it takes and gives.
    pub fn method(self) -> PlainMethod
        ensures { method_seen result ≡ text_method self }
    {
        use PlainType::{Boolean, Text};
        match self {
            TextCall::Equals => row("equals", &[Text], Boolean),
            TextCall::Concat => row("concat", &[Text], Text),
        }
    }

    /// The method of texts of this name.
    pub fn named(name: &str) -> Option<TextCall>
        ensures { result ≡ text_named name.now }
    {
        for call in &TextCall::ALL {
            if call.method().name == name {
                return Some(*call);
            }
        }
        None
    }
}
