//! Plain events in a note's line: a word, and behind it what the event names and has. The actor is the line's.
ghost use Rattle.std.specs.Prelude.{◌≡◌, map};
ghost use Rattle.gup_read_notes.specs.Reading.{map_in, protect_in, unmap_in, discard_in, load_in, store_in, pin_try_in, pin_drop_in, pin_ok_in, unpin_in, give_in, take_in, move_out_in, move_in_in, mirror_in, look_in, fork_begin_in, fork_page_in, fork_word_in, fork_end_in, fork_fail_in, event_in};

use crate::fields::{access, fork_of, handle_of, moved, page_of, range, way};
use crate::names::Names;
use gup_base::ActorNo;
use gup_plain::PlainEvent;
use gup_read_words::{address, number, page, word_no};

/// The event that the words are: its word, and the others.
#[tactic(auto, unfolding(crate::specs::Reading::event_in))]
pub(crate) fn event(
    names: &Names,
    actor: ActorNo,
    word: &str,
    fields: &[&str],
) -> Option<PlainEvent>
    ensures { result ≡ event_in names.now actor word.now (map (λ word. word.now) fields.now) }
{
    match word {
        "load" => load(names, actor, fields),
        "store" => store(names, actor, fields),
        "forkword" => fork_word(names, fields),
        "forkpage" => fork_page(names, fields),
        "out" => move_out(names, actor, fields),
        "in" => move_in(names, actor, fields),
        "map" => map(names, actor, fields),
        "unmap" => unmap(names, actor, fields),
        "discard" => discard(names, actor, fields),
        "protect" => protect(names, actor, fields),
        "pintry" => pin_try(names, actor, fields),
        "pindrop" => pin_drop(actor, fields),
        "pinok" => pin_ok(names, actor, fields),
        "unpin" => unpin(names, actor, fields),
        "give" => give(names, actor, fields),
        "take" => take(names, actor, fields),
        "mirror" => mirror(names, actor, fields),
        "look" => look(names, actor, fields),
        "forkbegin" => fork_begin(names, fields),
        "forkend" => fork_end(names, fields),
        "forkfail" => fork_fail(names, fields),
        _ => None,
    }
}

// `map P p n r` and `map P p n rw`.
#[tactic(auto, unfolding(crate::specs::Reading::map_in))]
fn map(names: &Names, actor: ActorNo, fields: &[&str]) -> Option<PlainEvent>
    ensures { result ≡ map_in names.now actor (map (λ word. word.now) fields.now) }
{
    let (proc, page, n, rights) = range(names, fields)?;
    Some(PlainEvent::Map {
        actor,
        proc,
        page,
        n,
        rights,
    })
}

// `protect P p n r` and `protect P p n rw`.
#[tactic(auto, unfolding(crate::specs::Reading::protect_in))]
fn protect(names: &Names, actor: ActorNo, fields: &[&str]) -> Option<PlainEvent>
    ensures { result ≡ protect_in names.now actor (map (λ word. word.now) fields.now) }
{
    let (proc, page, n, rights) = range(names, fields)?;
    Some(PlainEvent::Protect {
        actor,
        proc,
        page,
        n,
        rights,
    })
}

// `unmap P p`.
#[tactic(auto, unfolding(crate::specs::Reading::unmap_in))]
fn unmap(names: &Names, actor: ActorNo, fields: &[&str]) -> Option<PlainEvent>
    ensures { result ≡ unmap_in names.now actor (map (λ word. word.now) fields.now) }
{
    let (proc, page) = page_of(names, fields)?;
    Some(PlainEvent::Unmap { actor, proc, page })
}

// `discard P p`.
#[tactic(auto, unfolding(crate::specs::Reading::discard_in))]
fn discard(names: &Names, actor: ActorNo, fields: &[&str]) -> Option<PlainEvent>
    ensures { result ≡ discard_in names.now actor (map (λ word. word.now) fields.now) }
{
    let (proc, page) = page_of(names, fields)?;
    Some(PlainEvent::Discard { actor, proc, page })
}

// `load P p.w v`.
#[tactic(auto, unfolding(crate::specs::Reading::load_in))]
fn load(names: &Names, actor: ActorNo, fields: &[&str]) -> Option<PlainEvent>
    ensures { result ≡ load_in names.now actor (map (λ word. word.now) fields.now) }
{
    let (proc, page, word, value) = access(names, fields)?;
    Some(PlainEvent::Load {
        actor,
        proc,
        page,
        word,
        value,
    })
}

// `store P p.w v`.
#[tactic(auto, unfolding(crate::specs::Reading::store_in))]
fn store(names: &Names, actor: ActorNo, fields: &[&str]) -> Option<PlainEvent>
    ensures { result ≡ store_in names.now actor (map (λ word. word.now) fields.now) }
{
    let (proc, page, word, value) = access(names, fields)?;
    Some(PlainEvent::Store {
        actor,
        proc,
        page,
        word,
        value,
    })
}

// `pintry P p read` and `pintry P p write`.
#[tactic(auto, unfolding(crate::specs::Reading::pin_try_in))]
fn pin_try(names: &Names, actor: ActorNo, fields: &[&str]) -> Option<PlainEvent>
    ensures { result ≡ pin_try_in names.now actor (map (λ word. word.now) fields.now) }
{
    let [proc, page_word, way_word] = fields else {
        return None;
    };
    let proc = names.process(proc)?;
    let page = page(page_word)?;
    let write = way(way_word)?;
    Some(PlainEvent::PinTry {
        actor,
        proc,
        page,
        write,
    })
}

// `pindrop p`.
#[tactic(auto, unfolding(crate::specs::Reading::pin_drop_in))]
fn pin_drop(actor: ActorNo, fields: &[&str]) -> Option<PlainEvent>
    ensures { result ≡ pin_drop_in actor (map (λ word. word.now) fields.now) }
{
    let [page_word] = fields else {
        return None;
    };
    let page = page(page_word)?;
    Some(PlainEvent::PinDrop { actor, page })
}

// `pinok H`.
#[tactic(auto, unfolding(crate::specs::Reading::pin_ok_in))]
fn pin_ok(names: &Names, actor: ActorNo, fields: &[&str]) -> Option<PlainEvent>
    ensures { result ≡ pin_ok_in names.now actor (map (λ word. word.now) fields.now) }
{
    let handle = handle_of(names, fields)?;
    Some(PlainEvent::PinOk { actor, handle })
}

// `unpin H`.
#[tactic(auto, unfolding(crate::specs::Reading::unpin_in))]
fn unpin(names: &Names, actor: ActorNo, fields: &[&str]) -> Option<PlainEvent>
    ensures { result ≡ unpin_in names.now actor (map (λ word. word.now) fields.now) }
{
    let handle = handle_of(names, fields)?;
    Some(PlainEvent::Unpin { actor, handle })
}

// `give H X`.
#[tactic(auto, unfolding(crate::specs::Reading::give_in))]
fn give(names: &Names, actor: ActorNo, fields: &[&str]) -> Option<PlainEvent>
    ensures { result ≡ give_in names.now actor (map (λ word. word.now) fields.now) }
{
    let [handle, to] = fields else {
        return None;
    };
    let handle = names.handle(handle)?;
    let to = names.actor(to)?;
    Some(PlainEvent::Give { actor, handle, to })
}

// `take H`.
#[tactic(auto, unfolding(crate::specs::Reading::take_in))]
fn take(names: &Names, actor: ActorNo, fields: &[&str]) -> Option<PlainEvent>
    ensures { result ≡ take_in names.now actor (map (λ word. word.now) fields.now) }
{
    let handle = handle_of(names, fields)?;
    Some(PlainEvent::Take { actor, handle })
}

// `out H i s v`.
#[tactic(auto, unfolding(crate::specs::Reading::move_out_in))]
fn move_out(names: &Names, actor: ActorNo, fields: &[&str]) -> Option<PlainEvent>
    ensures { result ≡ move_out_in names.now actor (map (λ word. word.now) fields.now) }
{
    let (handle, index, slot, value) = moved(names, fields)?;
    Some(PlainEvent::MoveOut {
        actor,
        handle,
        index,
        slot,
        value,
    })
}

// `in H i s v`.
#[tactic(auto, unfolding(crate::specs::Reading::move_in_in))]
fn move_in(names: &Names, actor: ActorNo, fields: &[&str]) -> Option<PlainEvent>
    ensures { result ≡ move_in_in names.now actor (map (λ word. word.now) fields.now) }
{
    let (handle, index, slot, value) = moved(names, fields)?;
    Some(PlainEvent::MoveIn {
        actor,
        handle,
        index,
        slot,
        value,
    })
}

// `mirror M P p`.
#[tactic(auto, unfolding(crate::specs::Reading::mirror_in))]
fn mirror(names: &Names, actor: ActorNo, fields: &[&str]) -> Option<PlainEvent>
    ensures { result ≡ mirror_in names.now actor (map (λ word. word.now) fields.now) }
{
    let [slot, proc, page_word] = fields else {
        return None;
    };
    let mirror = names.slot(slot)?;
    let proc = names.process(proc)?;
    let page = page(page_word)?;
    Some(PlainEvent::MirrorFill {
        actor,
        mirror,
        proc,
        page,
    })
}

// `look M w v`.
#[tactic(auto, unfolding(crate::specs::Reading::look_in))]
fn look(names: &Names, actor: ActorNo, fields: &[&str]) -> Option<PlainEvent>
    ensures { result ≡ look_in names.now actor (map (λ word. word.now) fields.now) }
{
    let [slot, word, value] = fields else {
        return None;
    };
    let mirror = names.slot(slot)?;
    let word = word_no(word)?;
    let value = number(value)?;
    Some(PlainEvent::Look {
        actor,
        mirror,
        word,
        value,
    })
}

// `forkbegin P C`.
#[tactic(auto, unfolding(crate::specs::Reading::fork_begin_in))]
fn fork_begin(names: &Names, fields: &[&str]) -> Option<PlainEvent>
    ensures { result ≡ fork_begin_in names.now (map (λ word. word.now) fields.now) }
{
    let (parent, child) = fork_of(names, fields)?;
    Some(PlainEvent::ForkBegin { parent, child })
}

// `forkpage P C p`.
#[tactic(auto, unfolding(crate::specs::Reading::fork_page_in))]
fn fork_page(names: &Names, fields: &[&str]) -> Option<PlainEvent>
    ensures { result ≡ fork_page_in names.now (map (λ word. word.now) fields.now) }
{
    let [parent, child, page_word] = fields else {
        return None;
    };
    let parent = names.process(parent)?;
    let child = names.process(child)?;
    let page = page(page_word)?;
    Some(PlainEvent::ForkPage {
        parent,
        child,
        page,
    })
}

// `forkword P C p.w`.
#[tactic(auto, unfolding(crate::specs::Reading::fork_word_in))]
fn fork_word(names: &Names, fields: &[&str]) -> Option<PlainEvent>
    ensures { result ≡ fork_word_in names.now (map (λ word. word.now) fields.now) }
{
    let [parent, child, at] = fields else {
        return None;
    };
    let parent = names.process(parent)?;
    let child = names.process(child)?;
    let (page, word) = address(at)?;
    Some(PlainEvent::ForkWord {
        parent,
        child,
        page,
        word,
    })
}

// `forkend P C`.
#[tactic(auto, unfolding(crate::specs::Reading::fork_end_in))]
fn fork_end(names: &Names, fields: &[&str]) -> Option<PlainEvent>
    ensures { result ≡ fork_end_in names.now (map (λ word. word.now) fields.now) }
{
    let (parent, child) = fork_of(names, fields)?;
    Some(PlainEvent::ForkEnd { parent, child })
}

// `forkfail C`.
#[tactic(auto, unfolding(crate::specs::Reading::fork_fail_in))]
fn fork_fail(names: &Names, fields: &[&str]) -> Option<PlainEvent>
    ensures { result ≡ fork_fail_in names.now (map (λ word. word.now) fields.now) }
{
    let [child] = fields else {
        return None;
    };
    let child = names.process(child)?;
    Some(PlainEvent::ForkFail { child })
}
