//! The machine: linked programs, values, the messages on their way, and what each instruction does.
//! The definitions of a step stand in `specs/`; the crates above link and run.
#![tactic(auto)]

mod built;
mod linked;
mod linked_type;
mod outbox;
mod ports;
mod program;
mod spelling;
mod types;
mod value;

pub use built::{
    BuiltMember, OBJECT_CLASS, PRINT_STREAM_CLASS, SESSION_CLASS, STRING_CLASS, SYSTEM_CLASS,
    is_built_in, members_do_as_described,
};
pub use linked::{Built, LinkedArgs, LinkedClass, LinkedField, LinkedInstr, LinkedMethod};
pub use linked_type::LinkedType;
pub use ports::Ports;
pub use program::Linked;
pub use spelling::descriptors_spell_one;
pub use types::{FieldType, Signature, read_signature, read_type};
pub use value::Value;
