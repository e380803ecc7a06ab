//! The operation that the words after an actor's name spell.
//! A fault is the first that the words have.
ghost use Rattle.std.specs.Prelude.{[], length, ◌≤◌, ◌≡◌, map, Some};
ghost use Rattle.std.specs.List.{list_all};
ghost use Rattle.gup_read_words.specs.Text.{range_in};
ghost use Rattle.gup_script.specs.Script.{Actor, actor_at};
ghost use Rattle.gup_read.specs.Reading.{rights_in, zone_in, map_in, unmap_in, protect_in, discard_in, load_in, store_in, exit_in, way_in, pinned_in, pin_in, get_in, put_in, fork_in, unpin_in, take_in, give_in, transfer_in, segments_in, behind_parts, parts_in, mirror_in, look_in, move_in, thread_op_in, device_op_in, mover_op_in, op_of_kind, op_of_actor};

use crate::refusal::check;
use gup_base::{ActorNo, PageNo, Parts, Rights, Want, Zone};
use gup_read_outline::Reader;
use gup_read_words::{address, count, index, is_name, number, page, range, segment, word_no};
use gup_script::{Kind, Op};
use gup_spec_grammar::Reason;

/// How many pages a range may have.
const MAX_RANGE: u64 = 1_024;

/// How many pages a pin may have.
const MAX_PIN: u64 = 16;

/// How many words a transfer may have, and each of its parts.
const MAX_TRANSFER: u64 = 64;

/// How many parts a transfer may have after its first.
const MAX_MORE_PARTS: usize = 7;

#[tactic(auto, unfolding(crate::specs::Reading::rights_in))]
fn rights(word: &str) -> Option<Rights>
    ensures { result ≡ rights_in word.now }
{
    match word {
        "r" => Some(Rights::R),
        "rw" => Some(Rights::RW),
        _ => None,
    }
}

#[tactic(auto, unfolding(crate::specs::Reading::map_in))]
fn map_op(fields: &[&str]) -> Result<Op, Reason>
    ensures { result ≡ map_in (map (λ word. word.now) fields.now) }
{
    let [first, count, allowed] = fields else {
        return Err(Reason::Shape);
    };
    let rights = rights(allowed).ok_or(Reason::Shape)?;
    let (page, n) = range(MAX_RANGE, first, count).ok_or(Reason::Number)?;
    Ok(Op::Map { page, n, rights })
}

#[tactic(auto, unfolding(crate::specs::Reading::unmap_in))]
fn unmap_op(fields: &[&str]) -> Result<Op, Reason>
    ensures { result ≡ unmap_in (map (λ word. word.now) fields.now) }
{
    let [first, count] = fields else {
        return Err(Reason::Shape);
    };
    let (page, n) = range(MAX_RANGE, first, count).ok_or(Reason::Number)?;
    Ok(Op::Unmap { page, n })
}

#[tactic(auto, unfolding(crate::specs::Reading::protect_in))]
fn protect_op(fields: &[&str]) -> Result<Op, Reason>
    ensures { result ≡ protect_in (map (λ word. word.now) fields.now) }
{
    let [first, count, allowed] = fields else {
        return Err(Reason::Shape);
    };
    let rights = rights(allowed).ok_or(Reason::Shape)?;
    let (page, n) = range(MAX_RANGE, first, count).ok_or(Reason::Number)?;
    Ok(Op::Protect { page, n, rights })
}

#[tactic(auto, unfolding(crate::specs::Reading::discard_in))]
fn discard_op(fields: &[&str]) -> Result<Op, Reason>
    ensures { result ≡ discard_in (map (λ word. word.now) fields.now) }
{
    let [first, count] = fields else {
        return Err(Reason::Shape);
    };
    let (page, n) = range(MAX_RANGE, first, count).ok_or(Reason::Number)?;
    Ok(Op::Discard { page, n })
}

#[tactic(auto, unfolding(crate::specs::Reading::load_in))]
fn load_op(fields: &[&str]) -> Result<Op, Reason>
    ensures { result ≡ load_in (map (λ word. word.now) fields.now) }
{
    let [at] = fields else {
        return Err(Reason::Shape);
    };
    let (page, word) = address(at).ok_or(Reason::Number)?;
    Ok(Op::Load { page, word })
}

#[tactic(auto, unfolding(crate::specs::Reading::store_in))]
fn store_op(fields: &[&str]) -> Result<Op, Reason>
    ensures { result ≡ store_in (map (λ word. word.now) fields.now) }
{
    let [at, number_word] = fields else {
        return Err(Reason::Shape);
    };
    let (page, word) = address(at).ok_or(Reason::Number)?;
    let value = number(number_word).ok_or(Reason::Number)?;
    Ok(Op::Store { page, word, value })
}

#[tactic(auto, unfolding(crate::specs::Reading::exit_in))]
fn exit_op(fields: &[&str]) -> Result<Op, Reason>
    ensures { result ≡ exit_in (map (λ word. word.now) fields.now) }
{
    match fields {
        [] => Ok(Op::Exit),
        _ => Err(Reason::Shape),
    }
}

/// Whether a pin writes.
#[tactic(auto, unfolding(crate::specs::Reading::way_in))]
fn way(word: &str) -> Option<bool>
    ensures { result ≡ way_in word.now }
{
    match word {
        "read" => Some(false),
        "write" => Some(true),
        _ => None,
    }
}

/// The pages of a pin.
fn pinned_range(first: &str, count: &str) -> Option<(PageNo, u8)>
    ensures { result ≡ range_in 16 first.now count.now }
{
    let (page, n) = range(MAX_PIN, first, count)?;
    Some((page, n as u8))
}

/// The words of a pin but for `long`.
#[tactic(auto, unfolding(crate::specs::Reading::pinned_in))]
fn pinned_pages(
    reader: &Reader,
    fast: bool,
    long: bool,
    handle: &str,
    first: &str,
    count: &str,
    way_word: &str,
) -> Result<Op, Reason>
    ensures { result ≡ pinned_in fast long reader.now handle.now first.now count.now way_word.now }
{
    let write = way(way_word).ok_or(Reason::Shape)?;
    let (page, n) = pinned_range(first, count).ok_or(Reason::Number)?;
    check(is_name(handle), Reason::Name)?;
    check(reader.is_unused(handle), Reason::Twice)?;
    let handle = reader.next_handle().ok_or(Reason::Limit)?;
    Ok(Op::Pin {
        handle,
        page,
        n,
        want: Want { write, long },
        fast,
    })
}

/// `pin` and `pinfast`.
#[tactic(auto, unfolding(crate::specs::Reading::pin_in))]
fn pin_op(reader: &Reader, fast: bool, fields: &[&str]) -> Result<Op, Reason>
    ensures { result ≡ pin_in fast reader.now (map (λ word. word.now) fields.now) }
{
    match fields {
        [handle, first, count, way] => pinned_pages(reader, fast, false, handle, first, count, way),
        [handle, first, count, way, long] => {
            check(*long == "long", Reason::Shape)?;
            pinned_pages(reader, fast, true, handle, first, count, way)
        }
        _ => Err(Reason::Shape),
    }
}

#[tactic(auto, unfolding(crate::specs::Reading::get_in))]
fn get_op(reader: &Reader, fields: &[&str]) -> Result<Op, Reason>
    ensures { result ≡ get_in reader.now (map (λ word. word.now) fields.now) }
{
    let [handle, page_word] = fields else {
        return Err(Reason::Shape);
    };
    let page = page(page_word).ok_or(Reason::Number)?;
    check(is_name(handle), Reason::Name)?;
    check(reader.is_unused(handle), Reason::Twice)?;
    let handle = reader.next_handle().ok_or(Reason::Limit)?;
    Ok(Op::Get { handle, page })
}

#[tactic(auto, unfolding(crate::specs::Reading::put_in))]
fn put_op(reader: &Reader, fields: &[&str]) -> Result<Op, Reason>
    ensures { result ≡ put_in reader.now (map (λ word. word.now) fields.now) }
{
    let [handle] = fields else {
        return Err(Reason::Shape);
    };
    let handle = reader.got(handle).ok_or(Reason::Name)?;
    Ok(Op::Put { handle })
}

#[tactic(auto, unfolding(crate::specs::Reading::fork_in))]
fn fork_op(reader: &Reader, fields: &[&str]) -> Result<Op, Reason>
    ensures { result ≡ fork_in reader.now (map (λ word. word.now) fields.now) }
{
    let [child] = fields else {
        return Err(Reason::Shape);
    };
    let child = reader.process(child).ok_or(Reason::Name)?;
    check(reader.is_child(child), Reason::Name)?;
    check(!reader.is_forked(child), Reason::Twice)?;
    Ok(Op::Fork { child })
}

#[tactic(auto, unfolding(crate::specs::Reading::unpin_in))]
fn unpin_op(reader: &Reader, fields: &[&str]) -> Result<Op, Reason>
    ensures { result ≡ unpin_in reader.now (map (λ word. word.now) fields.now) }
{
    let [handle] = fields else {
        return Err(Reason::Shape);
    };
    let handle = reader.pin(handle).ok_or(Reason::Name)?;
    Ok(Op::Unpin { handle })
}

#[tactic(auto, unfolding(crate::specs::Reading::take_in))]
fn take_op(reader: &Reader, fields: &[&str]) -> Result<Op, Reason>
    ensures { result ≡ take_in reader.now (map (λ word. word.now) fields.now) }
{
    let [handle] = fields else {
        return Err(Reason::Shape);
    };
    let handle = reader.pin(handle).ok_or(Reason::Name)?;
    Ok(Op::Take { handle })
}

#[tactic(auto, unfolding(crate::specs::Reading::give_in))]
fn give_op(reader: &Reader, fields: &[&str]) -> Result<Op, Reason>
    ensures { result ≡ give_in reader.now (map (λ word. word.now) fields.now) }
{
    let [handle, to] = fields else {
        return Err(Reason::Shape);
    };
    let handle = reader.pin(handle).ok_or(Reason::Name)?;
    let to = reader.actor(to).ok_or(Reason::Name)?;
    check(reader.is_receiver(to), Reason::Name)?;
    Ok(Op::Give { handle, to })
}

/// `out` and `in`.
#[tactic(auto, unfolding(crate::specs::Reading::transfer_in))]
fn transfer_op(reader: &Reader, outward: bool, fields: &[&str]) -> Result<Op, Reason>
    ensures { result ≡ transfer_in outward reader.now (map (λ word. word.now) fields.now) }
{
    let [handle, index_word, slot, words] = fields else {
        return Err(Reason::Shape);
    };
    let first = index(index_word).ok_or(Reason::Number)?;
    let slot = index(slot).ok_or(Reason::Number)?;
    let n = count(1, MAX_TRANSFER, words).ok_or(Reason::Number)?;
    let handle = reader.pin(handle).ok_or(Reason::Name)?;
    let mut parts = Parts::new();
    parts.push(first, n as u8);
    Ok(Op::Transfer {
        handle,
        outward,
        slot,
        parts,
    })
}

/// The parts of a transfer, if all are spelled right and they have at most 64 words together.
fn read_parts(words: &[&str]) -> Option<Parts>
    requires { length words.now ≤ 8 }
    ensures { result ≡ behind_parts [] 64 (segments_in (map (λ word. word.now) words.now)) }
{
    let mut parts = Parts::new();
    let mut room = MAX_TRANSFER;
    for word in words {
        let Some((index, n)) = segment(word) else {
            return None;
        };
        if u64::from(n) > room {
            return None;
        }
        room -= u64::from(n);
        parts.push(index, n);
    }
    Some(parts)
}

/// `outv` and `inv`.
#[tactic(auto, unfolding(crate::specs::Reading::parts_in))]
fn parts_op(reader: &Reader, outward: bool, fields: &[&str]) -> Result<Op, Reason>
    ensures { result ≡ parts_in outward reader.now (map (λ word. word.now) fields.now) }
{
    let [handle, slot, words @ ..] = fields else {
        return Err(Reason::Shape);
    };
    let [_, more @ ..] = words else {
        return Err(Reason::Shape);
    };
    check(more.len() <= MAX_MORE_PARTS, Reason::Shape)?;
    let slot = index(slot).ok_or(Reason::Number)?;
    let parts = read_parts(words).ok_or(Reason::Number)?;
    let handle = reader.pin(handle).ok_or(Reason::Name)?;
    Ok(Op::Transfer {
        handle,
        outward,
        slot,
        parts,
    })
}

#[tactic(auto, unfolding(crate::specs::Reading::mirror_in))]
fn mirror_op(reader: &Reader, device: ActorNo, fields: &[&str]) -> Result<Op, Reason>
    ensures { result ≡ mirror_in reader.now device (map (λ word. word.now) fields.now) }
{
    let [mirror, process, page_word] = fields else {
        return Err(Reason::Shape);
    };
    let page = page(page_word).ok_or(Reason::Number)?;
    check(reader.may_be_mirror(device, mirror), Reason::Name)?;
    let proc = reader.process(process).ok_or(Reason::Name)?;
    let mirror = reader.slot(mirror).ok_or(Reason::Limit)?;
    Ok(Op::Mirror { mirror, proc, page })
}

#[tactic(auto, unfolding(crate::specs::Reading::look_in))]
fn look_op(reader: &Reader, device: ActorNo, fields: &[&str]) -> Result<Op, Reason>
    ensures { result ≡ look_in reader.now device (map (λ word. word.now) fields.now) }
{
    let [mirror, word] = fields else {
        return Err(Reason::Shape);
    };
    let word = word_no(word).ok_or(Reason::Number)?;
    check(reader.is_mirror(device, mirror), Reason::Name)?;
    let mirror = reader.mirror(mirror).ok_or(Reason::Name)?;
    Ok(Op::Look { mirror, word })
}

fn zone(word: &str) -> Option<Zone>
    ensures { result ≡ zone_in word.now }
{
    match word {
        "normal" => Some(Zone::Normal),
        "movable" => Some(Zone::Movable),
        _ => None,
    }
}

#[tactic(auto, unfolding(crate::specs::Reading::move_in))]
fn move_op(reader: &Reader, fields: &[&str]) -> Result<Op, Reason>
    ensures { result ≡ move_in reader.now (map (λ word. word.now) fields.now) }
{
    let [process, page_word, zone_word] = fields else {
        return Err(Reason::Shape);
    };
    let zone = zone(zone_word).ok_or(Reason::Shape)?;
    let page = page(page_word).ok_or(Reason::Number)?;
    let proc = reader.process(process).ok_or(Reason::Name)?;
    Ok(Op::Move { proc, page, zone })
}

#[tactic(auto, unfolding(crate::specs::Reading::thread_op_in))]
fn thread_op(reader: &Reader, word: &str, fields: &[&str]) -> Result<Op, Reason>
    ensures { result ≡ thread_op_in reader.now word.now (map (λ field. field.now) fields.now) }
{
    match word {
        "map" => map_op(fields),
        "unmap" => unmap_op(fields),
        "protect" => protect_op(fields),
        "discard" => discard_op(fields),
        "load" => load_op(fields),
        "store" => store_op(fields),
        "exit" => exit_op(fields),
        "pin" => pin_op(reader, false, fields),
        "pinfast" => pin_op(reader, true, fields),
        "get" => get_op(reader, fields),
        "put" => put_op(reader, fields),
        "fork" => fork_op(reader, fields),
        "unpin" => unpin_op(reader, fields),
        "take" => take_op(reader, fields),
        "give" => give_op(reader, fields),
        _ => Err(Reason::Word),
    }
}

#[tactic(auto, unfolding(crate::specs::Reading::device_op_in))]
fn device_op(reader: &Reader, device: ActorNo, word: &str, fields: &[&str]) -> Result<Op, Reason>
    ensures { result ≡ device_op_in reader.now device word.now (map (λ field. field.now) fields.now) }
{
    match word {
        "unpin" => unpin_op(reader, fields),
        "take" => take_op(reader, fields),
        "give" => give_op(reader, fields),
        "out" => transfer_op(reader, true, fields),
        "in" => transfer_op(reader, false, fields),
        "outv" => parts_op(reader, true, fields),
        "inv" => parts_op(reader, false, fields),
        "mirror" => mirror_op(reader, device, fields),
        "look" => look_op(reader, device, fields),
        _ => Err(Reason::Word),
    }
}

#[tactic(auto, unfolding(crate::specs::Reading::mover_op_in))]
fn mover_op(reader: &Reader, word: &str, fields: &[&str]) -> Result<Op, Reason>
    ensures { result ≡ mover_op_in reader.now word.now (map (λ field. field.now) fields.now) }
{
    match word {
        "move" => move_op(reader, fields),
        _ => Err(Reason::Word),
    }
}

/// The operation of this actor that has this word and these fields after it.
pub fn actor_op(reader: &Reader, actor: ActorNo, word: &str, fields: &[&str]) -> Result<Op, Reason>
    ensures { result ≡ op_of_actor reader.now actor (actor_at reader.now.script actor) word.now (map (λ field. field.now) fields.now) }
{
    match reader.kind(actor) {
        Some(Kind::Thread(_)) => thread_op(reader, word, fields),
        Some(Kind::Device(_)) => device_op(reader, actor, word, fields),
        Some(Kind::Mover) => mover_op(reader, word, fields),
        None => Err(Reason::Word),
    }
}
