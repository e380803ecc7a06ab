//! The fields of a note's line that several kinds of notes have.
ghost use Rattle.std.specs.Prelude.{◌≡◌, map};
ghost use Rattle.gup_read_notes.specs.Reading.{short_in, byte_in, rights_in, way_in, range_fields, page_fields, access_fields, handle_field, moved_fields, fork_fields};

use crate::names::Names;
use gup_base::{HandleNo, PageNo, ProcNo, Rights, WordNo};
use gup_read_words::{address, index, number, page};

/// The number that the word spells, if `u16` can hold it.
#[tactic(auto, unfolding(crate::specs::Reading::short_in))]
pub(crate) fn short(word: &str) -> Option<u16>
    ensures { result ≡ short_in word.now }
{
    u16::try_from(number(word)?).ok()
}

/// The number that the word spells, if `u8` can hold it.
#[tactic(auto, unfolding(crate::specs::Reading::byte_in))]
pub(crate) fn byte(word: &str) -> Option<u8>
    ensures { result ≡ byte_in word.now }
{
    u8::try_from(number(word)?).ok()
}

/// The rights that the word spells.
#[tactic(auto, unfolding(crate::specs::Reading::rights_in))]
pub(crate) fn rights(word: &str) -> Option<Rights>
    ensures { result ≡ rights_in word.now }
{
    match word {
        "r" => Some(Rights::R),
        "rw" => Some(Rights::RW),
        _ => None,
    }
}

/// Whether a pin writes.
#[tactic(auto, unfolding(crate::specs::Reading::way_in))]
pub(crate) fn way(word: &str) -> Option<bool>
    ensures { result ≡ way_in word.now }
{
    match word {
        "read" => Some(false),
        "write" => Some(true),
        _ => None,
    }
}

/// Pages of a process from one on: the process, the page, how many, and rights.
#[tactic(auto, unfolding(crate::specs::Reading::range_fields))]
pub(crate) fn range(names: &Names, fields: &[&str]) -> Option<(ProcNo, PageNo, u16, Rights)>
    ensures { result ≡ range_fields names.now (map (λ word. word.now) fields.now) }
{
    let [proc, page_word, count, allowed] = fields else {
        return None;
    };
    let proc = names.process(proc)?;
    let page = page(page_word)?;
    let n = short(count)?;
    let rights = rights(allowed)?;
    Some((proc, page, n, rights))
}

/// A page of a process.
#[tactic(auto, unfolding(crate::specs::Reading::page_fields))]
pub(crate) fn page_of(names: &Names, fields: &[&str]) -> Option<(ProcNo, PageNo)>
    ensures { result ≡ page_fields names.now (map (λ word. word.now) fields.now) }
{
    let [proc, page_word] = fields else {
        return None;
    };
    let proc = names.process(proc)?;
    let page = page(page_word)?;
    Some((proc, page))
}

/// A word of a process's page, and a value.
#[tactic(auto, unfolding(crate::specs::Reading::access_fields))]
pub(crate) fn access(names: &Names, fields: &[&str]) -> Option<(ProcNo, PageNo, WordNo, u64)>
    ensures { result ≡ access_fields names.now (map (λ word. word.now) fields.now) }
{
    let [proc, at, value] = fields else {
        return None;
    };
    let proc = names.process(proc)?;
    let (page, word) = address(at)?;
    let value = number(value)?;
    Some((proc, page, word, value))
}

/// A handle alone.
#[tactic(auto, unfolding(crate::specs::Reading::handle_field))]
pub(crate) fn handle_of(names: &Names, fields: &[&str]) -> Option<HandleNo>
    ensures { result ≡ handle_field names.now (map (λ word. word.now) fields.now) }
{
    let [handle] = fields else {
        return None;
    };
    names.handle(handle)
}

/// A word of a transfer: the handle, the word's index in the pin, its slot in the store, and the word.
#[tactic(auto, unfolding(crate::specs::Reading::moved_fields))]
pub(crate) fn moved(names: &Names, fields: &[&str]) -> Option<(HandleNo, u32, u32, u64)>
    ensures { result ≡ moved_fields names.now (map (λ word. word.now) fields.now) }
{
    let [handle, index_word, slot, value] = fields else {
        return None;
    };
    let handle = names.handle(handle)?;
    let at = index(index_word)?;
    let slot = index(slot)?;
    let value = number(value)?;
    Some((handle, at, slot, value))
}

/// The parent and the child of a fork.
#[tactic(auto, unfolding(crate::specs::Reading::fork_fields))]
pub(crate) fn fork_of(names: &Names, fields: &[&str]) -> Option<(ProcNo, ProcNo)>
    ensures { result ≡ fork_fields names.now (map (λ word. word.now) fields.now) }
{
    let [parent, child] = fields else {
        return None;
    };
    let parent = names.process(parent)?;
    let child = names.process(child)?;
    Some((parent, child))
}
