use gup_base::ActorNo;
use gup_plain::{Answer, Waiting};
use gup_read::read_script;
use gup_script::Script;
use gup_search::{Explored, explore};
use gup_spec_orders::{Named, Outcome, Told};
use std::alloc::Global;
use std::process::Abort;
use std::test::Fail;

// A lockless walk beside a move of its page (docs/RULES.md).
const WALK_AND_MOVE: &str = "gup 1\nframes 8 8 64\nprocess p\nthread t p\nthread v p\nmover m\n\
on t map 5 1 rw\non t store 5.0 7\non v pinfast f 5 1 write\non m move p 5 normal\nturns t*2\n";

// A thread stores while another forks.
const STORE_AND_FORK: &str =
    "gup 1\nframes 8 8 64\nprocess p\nchild c\nthread t p\nthread v p\nthread u c\n\
on t map 5 2 rw\non t store 5.0 1\non t store 6.0 1\non t fork c\non v store 6.0 2\non v store 6.0 3\n\
on u load 5.0\non u load 6.0\n";

// A device reads a word that its owner writes meanwhile, if it was given the pin.
const DEVICE: &str = "gup 1\nframes 8 8 64\nprocess p\nthread t p\ndevice d 8\n\
on t map 5 1 rw\non t store 5.0 7\non t pin f 5 1 write\non t give f d\non t store 5.0 8\n\
on d take f\non d out f 0 0 1\n";

// Nobody gives the pin that d is to take, where t's load comes before its map.
const NEVER_GIVEN: &str = "gup 1\nframes 8 8 64\nprocess p\nthread t p\nthread u p\ndevice d 8\n\
on t map 5 1 rw\non u pin f 5 1 write\non u give f d\non d take f\n";

// Two turns, one after the other: the states are the start, and one behind each turn.
const MAP_AND_STORE: &str = "gup 1\nframes 8 8 64\nprocess p\nthread t p\n\
on t map 5 1 rw\non t store 5.0 7\n";

// Two threads map a page each: the states are the start, one behind either map, and one behind both, whichever came first.
const TWO_MAPS: &str = "gup 1\nframes 8 8 64\nprocess p\nthread t p\nthread v p\n\
on t map 5 1 rw\non v map 9 1 rw\n";

fn read(alloc: Global, text: &str) -> Result<Script, Fail> {
    match read_script(alloc, text.as_bytes()) {
        Ok(script) => Ok(script),
        Err(_) => Err("a script".into()),
    }
}

// All operations.
fn all_named(alloc: Global, script: &Script) -> Result<Vec<Named>, Fail> {
    let mut named = Vec::new(alloc);
    for a in 0..script.actors() {
        let Some(actor) = ActorNo::new(u64::from(a)) else {
            return Err("an actor".into());
        };
        let mut op = 1_u32;
        for _op in script.ops(actor) {
            named.push(Named { actor, op })?;
            op = op.saturating_add(1);
        }
    }
    Ok(named)
}

fn explored(alloc: Global, text: &str, behind: bool, limit: usize) -> Result<Explored, Fail> {
    let script = read(alloc, text)?;
    let named = all_named(alloc, &script)?;
    match explore(alloc, &script, behind, named.as_slice(), limit) {
        Ok(found) => Ok(found),
        Err(_) => Err("memory".into()),
    }
}

// The answer of the operation at this place among those that are named.
fn answer(outcome: &Outcome, name: usize) -> Option<Answer> {
    for tell in outcome.tells.iter() {
        if tell.name == name {
            if let Told::Answer(answer) = tell.told {
                return Some(answer);
            }
        }
    }
    None
}

fn waits_for_a_pin(waits: &[Option<Waiting>], actor: usize) -> bool {
    actor < waits.len() && matches!(&waits[actor], Some(Waiting::Handle(_)))
}

#[test]
fn a_walk_beside_a_move_has_seven_outcomes(rt: HostRuntime) -> Result<(), Fail> {
    let found = explored(rt.alloc(), WALK_AND_MOVE, false, 10_000)?;
    assert!(rt; !found.is_open);
    assert_eq!(rt; found.outcomes.len(), 7);
    Ok(())
}

#[test]
fn behind_its_map_and_store_a_walk_pins_or_the_page_is_moved(rt: HostRuntime) -> Result<(), Fail> {
    let found = explored(rt.alloc(), WALK_AND_MOVE, true, 10_000)?;
    assert!(rt; !found.is_open);
    for outcome in found.outcomes.iter() {
        // The pin is never refused, and a move that is refused found the walk's 1,024.
        assert_eq!(rt; answer(outcome, 2), Some(Answer::Pinned(1)));
        let moved = answer(outcome, 3);
        assert!(rt; moved == Some(Answer::Plain) || moved == Some(Answer::Busy(1_025)));
    }
    assert_eq!(rt; found.outcomes.len(), 2);
    Ok(())
}

#[test]
fn stores_beside_a_fork_have_six_outcomes(rt: HostRuntime) -> Result<(), Fail> {
    let found = explored(rt.alloc(), STORE_AND_FORK, false, 10_000)?;
    assert!(rt; !found.is_open);
    assert_eq!(rt; found.outcomes.len(), 6);
    Ok(())
}

#[test]
fn a_device_reads_what_its_owner_wrote_before_or_after(rt: HostRuntime) -> Result<(), Fail> {
    let found = explored(rt.alloc(), DEVICE, false, 10_000)?;
    assert!(rt; !found.is_open);
    assert_eq!(rt; found.outcomes.len(), 2);
    let mut words = Vec::new(rt.alloc());
    for outcome in found.outcomes.iter() {
        for tell in outcome.tells.iter() {
            if let Told::Word(word) = tell.told {
                words.push(word)?;
            }
        }
        assert_eq!(rt; outcome.path.len(), 7);
    }
    assert_eq!(rt; words.len(), 2);
    assert!(rt; words.as_slice().contains(&7) && words.as_slice().contains(&8));
    Ok(())
}

#[test]
fn a_stuck_order_is_an_outcome(rt: HostRuntime) -> Result<(), Fail> {
    let found = explored(rt.alloc(), NEVER_GIVEN, false, 10_000)?;
    assert!(rt; !found.is_open);
    assert_eq!(rt; found.outcomes.len(), 2);
    let mut stuck = 0_u8;
    for outcome in found.outcomes.iter() {
        if waits_for_a_pin(outcome.waits.as_slice(), 2) {
            stuck = stuck.saturating_add(1);
            assert_eq!(rt; answer(outcome, 2), Some(Answer::NotHeld));
        }
    }
    assert_eq!(rt; stuck, 1);
    Ok(())
}

#[test]
fn a_limit_leaves_a_search_open(rt: HostRuntime) -> Result<(), Fail> {
    for limit in [0, 1, 20] {
        let found = explored(rt.alloc(), STORE_AND_FORK, false, limit)?;
        assert!(rt; found.is_open);
        assert_eq!(rt; found.states, limit);
    }
    Ok(())
}

#[test]
fn a_search_with_just_enough_room_is_not_open(rt: HostRuntime) -> Result<(), Fail> {
    for limit in [4, 5, 10_000] {
        let found = explored(rt.alloc(), TWO_MAPS, false, limit)?;
        assert!(rt; !found.is_open);
        assert_eq!(rt; found.states, 4);
        assert_eq!(rt; found.outcomes.len(), 1);
    }
    let found = explored(rt.alloc(), TWO_MAPS, false, 3)?;
    assert!(rt; found.is_open);
    assert_eq!(rt; found.states, 3);
    Ok(())
}

#[test]
fn each_turn_of_one_thread_leads_to_a_state(rt: HostRuntime) -> Result<(), Fail> {
    let found = explored(rt.alloc(), MAP_AND_STORE, false, 10_000)?;
    assert!(rt; !found.is_open);
    assert_eq!(rt; found.states, 3);
    assert_eq!(rt; found.outcomes.len(), 1);
    Ok(())
}
