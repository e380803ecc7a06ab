//! Jobs of direct I/O, and the places of their words.
ghost use Rattle.std.specs.Prelude.{◌≡◌, ℕ, ◌+◌, ◌/◌, ◌%◌, ◌^◌, ◌≤◌, ◌<◌, true, nat_le};
ghost use Rattle.gup_base.specs.Parts.{words_of, word_at};
ghost use Rattle.gup_plain.specs.Denial.{has_words, has_slots};
ghost use Rattle.gup_dio.specs.Job.{job_of, fits_in, are_within};

use gup_base::{Parts, WordNo};
use std::marker::Model;

// The words of a page.
const WORDS: u32 = 512;

/// A transfer between a pin and the store of a device, as `preadv` and `pwritev` on a file that is open with `O_DIRECT` make one: the
/// words of its parts, one part after another, and as many slots of the store, from a first one on.
#[derive(Debug, Drop)]
pub struct Job<'a> {
    first_slot: u32,
    words: u8,
    parts: &'a [(u32, u8)],
}

impl<'a> Model for Job<'a> {
    ghost use Rattle.std.specs.Prelude.{◌≡◌, ◌≤◌};
    ghost use Rattle.gup_base.specs.Parts.{words_of};
    ghost use Rattle.gup_dio.specs.Job.{JobValue};

    ghost Value = { JobValue };

    ghost view = { λ j. record { first_slot = j.first_slot; parts = j.parts.now } };

    ghost invariant = { λ j. (j.words ≡ words_of j.parts.now) × (j.words ≤ 64) };
}

/// Where a word of a job is: by its number in the pin, from 0 over all the pin's pages, 512 words a page, and in which slot of the store.
#[derive(Clone, Copy, Debug)]
pub struct Place {
    pub index: u32,
    pub slot: u16,
}

impl Place {
    /// The page of the pin, from 0.
    pub fn page(self) -> usize
        ensures { result ≡ self.index / 512 }
    {
        (self.index / WORDS) as usize
    }

    /// The word of that page.
    pub fn word(self) -> WordNo
        ensures { result ≡ self.index % 512 }
    {
        WordNo::new(u64::from(self.index % WORDS)).unwrap()
    }
}

impl<'a> Job<'a> {
    /// The job of these parts, with slots from this one on. That the pin and the store have them is not said.
    #[inline]
    pub fn new(first_slot: u32, parts: &'a Parts) -> Job<'a>
        requires { words_of parts.now ≤ 64 }
        ensures { result ≡ job_of first_slot parts.now }
    {
        let parts = parts.as_slice();
        Job {
            first_slot,
            words: words_in(parts),
            parts,
        }
    }

    /// How many words it moves, at most 64.
    #[inline]
    pub fn words(&self) -> u8
        ensures words { result ≡ words_of self.now.parts }
        ensures few { result ≤ 64 }
    {
        self.words
    }

    /// Whether each word of each part is a word of a pin of so many pages, and the store has so many slots that each word has its own.
    #[inline]
    pub fn fits(&self, pages: u8, slots: u16) -> bool
        ensures { result ≡ fits_in pages slots self.now }
    {
        self.is_within(WORDS * u32::from(pages)) && self.has_slots(slots)
    }

    // Whether each word of each part is among so many.
    fn is_within(&self, words: u32) -> bool
        ensures { result ≡ are_within words self.now.parts }
    {
        if let [part] = self.parts {
            return ends_within(*part, words);
        }
        self.parts.iter().all(|part| ends_within(*part, words))
    }

    fn has_slots(&self, slots: u16) -> bool
        ensures { result ≡ has_slots slots self.now.first_slot self.now.parts }
    {
        u64::from(self.first_slot) + u64::from(self.words) <= u64::from(slots)
    }

    /// Where the word with this number is, from 0: the words of a part follow each other, and behind its last one comes the first of
    /// the next part; their slots follow each other over all parts.
    #[inline]
    pub fn at(&self, k: u16) -> Place
        requires fits { (pages slots : ℕ) × (pages < 2 ^ 8) × (slots < 2 ^ 16) × (fits_in pages slots self.now ≡ true) }
        requires within { k < words_of self.now.parts }
        ensures index { result.index ≡ word_at self.now.parts k }
        ensures slot { result.slot ≡ self.now.first_slot + k }
    {
        Place {
            index: self.index(k),
            slot: self.first_slot as u16 + k,
        }
    }

    // The number in the pin of the word with this number.
    fn index(&self, k: u16) -> u32
        requires fits { (pages : ℕ) × (pages < 2 ^ 8) × (has_words pages self.now.parts ≡ true) }
        requires within { k < words_of self.now.parts }
        ensures { result ≡ word_at self.now.parts k }
    {
        if let [part] = self.parts {
            return part.0 + u32::from(k);
        }
        let mut left = k;
        for part in self.parts.iter() {
            let words = u16::from(part.1);
            if left < words {
                return part.0 + u32::from(left);
            }
            left -= words;
        }
        unreachable!()
    }
}

// How many words the parts have.
fn words_in(parts: &[(u32, u8)]) -> u8
    requires { words_of parts.now ≤ 64 }
    ensures { result ≡ words_of parts.now }
{
    // Most transfers have one part.
    if let [part] = parts {
        return part.1;
    }
    let mut words = 0;
    for part in parts {
        words += part.1;
    }
    words
}

// Whether the words of the part are among the first `words`.
fn ends_within(part: (u32, u8), words: u32) -> bool
    ensures { result ≡ nat_le (part.0 + part.1) words }
{
    u64::from(part.0) + u64::from(part.1) <= u64::from(words)
}
