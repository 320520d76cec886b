//! A refusal: its kind, where it stands, and what it names.

use mg_text::{Place, Text};
use std::marker::Model;

/// Where a refusal stands.
#[derive(Clone, Copy, PartialEq, Eq)]
pub enum Spot {
    /// In no file.
    Nowhere,
    /// At a line and a column of a text.
    Text(Place),
    /// At an offset, in bytes, of the class file of this number.
    Bytes { file: u32, offset: u32 },
}

/// Why files are refused: a kind, by its word, the spot where it stands, and what is named there, if
/// anything is.
#[derive(Drop)]
pub struct Refusal {
    kind: &'static str,
    spot: Spot,
    name: Option<Text>,
}

impl Model for Refusal {
    ghost use Rattle.mg_refusal.specs.Refusals.{Refusal as Seen};

    ghost Value = { Seen };

    ghost view = { λ r. record { kind = r.kind.now; spot = r.spot; name = r.name } };
}

impl Refusal {
    ghost use Rattle.std.specs.Prelude.{◌≡◌, [], option_map};
    ghost use Rattle.mg_refusal.specs.Refusals.{refusal_at, refusal_in_bytes, refusal_nowhere, in_file};

    /// At a place of a text, where nothing is named.
    pub fn at(kind: &'static str, place: Place) -> Refusal
        ensures { result ≡ refusal_at kind.now place [] }
    {
        Refusal {
            kind,
            spot: Spot::Text(place),
            name: None,
        }
    }

    /// At a place of a text, with what is named there; an empty name names nothing.
    pub fn named(kind: &'static str, place: Place, name: Text) -> Refusal
        ensures { result ≡ refusal_at kind.now place name }
    {
        let name = if name.as_str().is_empty() {
            None
        } else {
            Some(name)
        };
        Refusal {
            kind,
            spot: Spot::Text(place),
            name,
        }
    }

    /// At an offset of the class file of this number.
    pub fn in_bytes(kind: &'static str, file: u32, offset: u32) -> Refusal
        ensures { result ≡ refusal_in_bytes kind.now file offset }
    {
        Refusal {
            kind,
            spot: Spot::Bytes { file, offset },
            name: None,
        }
    }

    /// In no file.
    pub fn nowhere(kind: &'static str, name: Text) -> Refusal
        ensures { result ≡ refusal_nowhere kind.now name }
    {
        Refusal {
            kind,
            spot: Spot::Nowhere,
            name: Some(name),
        }
    }

    /// The same at that place of the text of this number.
    pub fn in_file(self, file: u32) -> Refusal
        ensures { result ≡ in_file file self }
    {
        let Refusal { kind, spot, name } = self;
        let spot = match spot {
            Spot::Text(place) => Spot::Text(Place { file, ..place }),
            _ => spot,
        };
        Refusal { kind, spot, name }
    }

    /// The word of its kind.
    pub fn kind(&self) -> &'static str
        ensures { result.now ≡ self.now.kind }
    {
        self.kind
    }

    /// Where it stands.
    pub fn spot(&self) -> Spot
        ensures { result ≡ self.now.spot }
    {
        self.spot
    }

    /// What is named, if anything is.
    pub fn name(&self) -> Option<&Text>
        ensures { option_map (λ n. n.now) result ≡ self.now.name }
    {
        self.name.as_ref()
    }
}
