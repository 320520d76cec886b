//! What is found by name in the tables of a program.

ghost use Rattle.std.specs.Prelude.{◌≡◌, map, option_map, position, IfSome};
ghost use Rattle.std.specs.Str.{bytes_eq};
ghost use Rattle.jv_meaning.specs.Program.{class_named, classes_of, enum_named};
ghost use Rattle.jv_rules.specs.Program.{typestate_of, is_of_protocol};
ghost use Rattle.jv_types.specs.inner.Tabled.{class_in, enum_in, IsEntryOf, AreEntriesOf};
ghost use Rattle.jv_types.specs.Tables.{program_in, class_entries_of, enum_entries_of};

use crate::entry::{ClassEntry, EnumEntry};
use crate::name_table::Table;
use crate::naming::place_of;
use crate::protocols::Protocol;
use ts_tree::Typestate;

impl<'a> Table<'a> {
    /// The class of a name.
    #[tactic(auto, using(crate::proofs::Entries::within))]
    pub(crate) fn class_named(&self, name: &str) -> Option<&ClassEntry<'a>>
        ensures class { option_map (λ e. class_in e.now) result ≡ class_named (program_in self.now).files name.now }
        ensures entry { IfSome result (λ e. IsEntryOf (program_in self.now) e.now) }
    {
        match self.class_names.find(name) {
            Some(number) => Some(&self.classes[number.0 as usize]),
            None => None,
        }
    }

    /// The enum of a name.
    #[tactic(auto, using(crate::proofs::Entries::within))]
    pub(crate) fn enum_named(&self, name: &str) -> Option<&EnumEntry<'a>>
        ensures { option_map (λ e. enum_in e.now) result ≡ enum_named (program_in self.now).files name.now }
    {
        match self.enum_names.find(name) {
            Some(number) => Some(&self.enums[number.0 as usize]),
            None => None,
        }
    }

    /// What the typestate of a class offers, where it has one.
    #[tactic(auto, using(crate::proofs::Entries::within))]
    pub(crate) fn protocol_of(&self, entry: &ClassEntry<'a>) -> Option<&Protocol<'a>>
        ensures { option_map (λ p. p.now.of.now) result ≡ typestate_of (program_in self.now) (class_in entry.now) }
    {
        let name = match &entry.class.typestate {
            Some(name) => name,
            None => return None,
        };
        match self.typestate_names.find(name.as_str()) {
            Some(number) => Some(&self.protocols[number.0 as usize]),
            None => None,
        }
    }

    /// Whether the typestate of a class offers a method of this name.
    pub(crate) fn is_offered(&self, entry: &ClassEntry<'a>, name: &str) -> bool
        ensures { result ≡ is_of_protocol (program_in self.now) (class_in entry.now) name.now }
    {
        match self.protocol_of(entry) {
            Some(protocol) => protocol.has_offer(name),
            None => false,
        }
    }

    /// The classes, in file and text order.
    pub fn classes(&self) -> &[ClassEntry<'a>]
        ensures classes { map class_in result.now ≡ classes_of (program_in self.now).files }
        ensures entries { AreEntriesOf (program_in self.now) result.now }
        ensures items { result.now ≡ class_entries_of self.now }
    {
        self.classes.as_slice()
    }

    /// The enums, in file and text order.
    pub fn enums(&self) -> &[EnumEntry<'a>]
        ensures { result.now ≡ enum_entries_of self.now }
    {
        self.enums.as_slice()
    }

    /// The typestates, by their numbers.
    pub fn typestates(&self) -> &'a [Typestate]
        ensures { result.now ≡ (program_in self.now).typestates }
    {
        self.typestates
    }

    /// What the typestates offer, by their numbers.
    pub fn protocols(&self) -> &[Protocol<'a>]
        ensures { map (λ p. p.of.now) result.now ≡ (program_in self.now).typestates }
    {
        self.protocols.as_slice()
    }

    /// The number of the class of a name.
    pub fn class_number(&self, name: &str) -> Option<u32>
        ensures { result ≡ position (bytes_eq name.now) (map (λ e. e.class.now.name) (class_entries_of self.now)) }
    {
        place_of(&self.class_names, name)
    }

    /// The number of the enum of a name.
    pub fn enum_number(&self, name: &str) -> Option<u32>
        ensures { result ≡ position (bytes_eq name.now) (map (λ e. e.of.now.name) (enum_entries_of self.now)) }
    {
        place_of(&self.enum_names, name)
    }
}
