//! Where a text that was kept lately may be found again.
//! A guess may be wrong: the text is compared before its number is used, and no clause rests on guesses.

ghost use Rattle.std.specs.Prelude.{◌<◌};

use mg_text::Memory;
use std::alloc::Global;

/// What stands where nothing was kept yet: no text has this number.
const NOTHING: u32 = 0xffff_ffff;

/// How many places there are.
const PLACES: usize = 256;

/// How many bytes of a text tell its place.
const SAMPLES: usize = 16;

/// The numbers of the two texts of a place that were kept last.
#[derive(Clone, Copy)]
pub(crate) struct Guess {
    pub last: u32,
    pub other: u32,
}

/// Numbers of texts that were kept lately, by the places of these.
#[derive(Drop)]
pub(crate) struct Guesses {
    places: Vec<Guess>,
}

/// The place of a text, by its length and by bytes that are spread over it from its end.
pub(crate) fn place_of(text: &str) -> usize {
    let bytes = text.as_bytes();
    let mut number = bytes.len();
    for sample in 1..=SAMPLES {
        let end = bytes.len().wrapping_mul(sample) / SAMPLES;
        let byte = match bytes.get(end.wrapping_sub(1)) {
            Some(byte) => *byte,
            None => 0,
        };
        number = number.wrapping_mul(31).wrapping_add(usize::from(byte));
    }
    number % PLACES
}

impl Guesses {
    /// No guess at any place.
    ///
    /// # Errors
    /// `Memory` only.
    pub(crate) fn new(alloc: Global) -> Result<Guesses, Memory> {
        let nothing = Guess {
            last: NOTHING,
            other: NOTHING,
        };
        let places = vec![in alloc; nothing; PLACES]?;
        Ok(Guesses { places })
    }

    /// The guesses of a place.
    pub(crate) fn at(&self, place: usize) -> Guess {
        match self.places.get(place) {
            Some(guess) => *guess,
            None => Guess {
                last: NOTHING,
                other: NOTHING,
            },
        }
    }

    /// Guesses that a text of a place is this one; the one that was guessed last is still the other.
    pub(crate) fn put(&mut self, place: usize, number: u32) {
        if let Some(guess) = self.places.get_mut(place) {
            guess.other = guess.last;
            guess.last = number;
        }
    }
}
