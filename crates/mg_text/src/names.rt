//! Texts by numbers: each text of a table has one number, and is found by it or by its bytes.
//! Numbers go from 0 up, in the order of first adding.

ghost use Rattle.std.specs.Prelude.{◌≡◌, [], ◌∷◌, ◌++◌, ◌<◌, ◌≤◌, ◌^◌, Some, None, IfOk, OnOk, OnErr, length, slice_get, position};
ghost use Rattle.std.specs.Option.{option_map};
ghost use Rattle.std.specs.Str.{bytes_eq};
ghost use Rattle.mg_text.specs.Interned.{with_text};

use crate::Memory;
use std::alloc::Global;
use std::collections::BTreeMap;
use std::marker::Model;

/// The number of a text in its table, from 0, in the order of first adding.
#[derive(Clone, Copy, Debug, PartialEq, Eq)]
pub struct Name(pub u32);

/// A table of texts, each once. Contracts see it as the list of them, in the order of first adding.
pub struct Names {
    texts: Vec<String>,
    // The number of each text. A tree: a find takes some comparisons of texts, whatever the texts are. A table of hashes
    // is quicker at most texts, and slow at texts that are chosen to collide.
    numbers: BTreeMap<String, u32>,
}

// One call lets go of it, wherever a function ends.
impl Drop for Names {
    fn drop(self) {
        let Names {
            texts: _,
            numbers: _,
        } = self;
    }
}

impl Model for Names {
    ghost use Rattle.std.specs.Prelude.{List, ℕ, map, string_bytes, ◌≤◌, ◌^◌, vec_len};
    ghost use Rattle.mg_text.specs.Interned.{HasNumbers};

    ghost Value = { List (List ℕ) };

    ghost view = { λ n. map string_bytes n.texts.items };

    ghost invariant = { λ n. (vec_len n.texts ≤ 2 ^ 32) × HasNumbers (map string_bytes n.texts.items) n.numbers };
}

impl Names {
    /// A table of no texts. Nothing is allocated before the first is added.
    pub fn new(alloc: Global) -> Names
        ensures { result ≡ [] }
    {
        Names {
            texts: Vec::new(alloc),
            numbers: BTreeMap::new(alloc),
        }
    }

    /// How many texts there are.
    pub fn len(&self) -> usize
        ensures value { result ≡ length self.now }
        ensures bound { result ≤ 2 ^ 32 }
    {
        self.texts.len()
    }

    /// The number of a text, which is added where it is new. After an error the table is as before.
    ///
    /// # Errors
    /// `Memory` only.
    #[tactic(auto, using(crate::proofs::Numbered::numbered))]
    pub fn add(&mut self, text: &str) -> Result<Name, Memory>
        requires { length self.old < 2 ^ 32 }
        ensures ok { OnOk result (self.new ≡ with_text self.old text.now) }
        ensures name { IfOk result (λ n. position (bytes_eq text.now) self.new ≡ Some n.0) }
        ensures err { OnErr result (self.new ≡ self.old) }
    {
        if let Some(name) = self.find(text) {
            return Ok(name);
        }
        self.add_new(text)
    }

    // The number of a text that the table does not have yet, and has from then on.
    fn add_new(&mut self, text: &str) -> Result<Name, Memory>
        requires new { position (bytes_eq text.now) self.old ≡ None }
        requires fits { length self.old < 2 ^ 32 }
        ensures ok { OnOk result (self.new ≡ self.old ++ text.now ∷ []) }
        ensures name { IfOk result (λ n. n.0 ≡ length self.old) }
        ensures err { OnErr result (self.new ≡ self.old) }
    {
        let alloc = *self.texts.allocator();
        let owned = String::from_str(alloc, text)?;
        let key = String::from_str(alloc, text)?;
        // Room comes first: after the map has the text, nothing fails.
        self.texts.reserve(1)?;
        let end = self.texts.len();
        self.numbers.insert(key, end as u32)?;
        self.texts.push(owned).unwrap();
        Ok(Name(end as u32))
    }

    /// The number of a text. None comes exactly where the table does not have it.
    #[tactic(auto, using(crate::proofs::Numbered::numbered))]
    pub fn find(&self, text: &str) -> Option<Name>
        ensures { option_map (λ n. n.0) result ≡ position (bytes_eq text.now) self.now }
    {
        match self.numbers.get(text) {
            Some(number) => Some(Name(*number)),
            None => None,
        }
    }

    /// The text of a number of this table.
    pub fn text(&self, name: Name) -> &str
        requires { name.0 < length self.now }
        ensures { slice_get self.now name.0 ≡ Some result.now }
    {
        self.texts[name.0 as usize].as_str()
    }
}
