ghost use Rattle.std.specs.Prelude.{◌↔◌, IsTrue};
ghost use Rattle.gup_frames.specs.Frames.{frames_of, IsFrame};
ghost use Rattle.gup_device.specs.Store.{store_of, IsSlot};

use gup_base::{Allowed, FrameNo, WordNo};
use gup_device::Store;
use gup_frames::Frames;
use std::process::Abort;
use std::test::Fail;

// The frame is there.
fn expect_frame(rt: &impl Abort, frames: &Frames, frame: FrameNo)
    ensures { IsFrame (frames_of frames.now) frame }
{
    let many = u64::from(frames.movable()) + u64::from(frames.normal());
    assert!(rt; frame.get() < many);
}

// Whether the slot is one of the store.
fn has(store: &Store, slot: u16) -> bool
    ensures { IsTrue result ↔ IsSlot (store_of store.now) slot }
{
    slot < store.words()
}

// The word of the slot, where it is one.
fn kept(store: &Store, slot: u16) -> Option<u64> {
    if has(store, slot) {
        Some(store.word(slot))
    } else {
        None
    }
}

// Moves a word from the frame into the slot, or back.
fn moved(
    rt: &impl Abort,
    store: &mut Store,
    frames: &mut Frames,
    place: (FrameNo, u64),
    slot: u16,
    out: bool,
) -> Option<u64> {
    let word = WordNo::new(place.1)?;
    expect_frame(rt, frames, place.0);
    if !has(store, slot) {
        return None;
    }
    Some(if out {
        store.word_out(frames, place.0, word, slot)
    } else {
        store.word_in(frames, place.0, word, slot)
    })
}

#[test]
fn words_move_between_slots_and_frames(rt: HostRuntime) -> Result<(), Fail> {
    let mut frames = Frames::new(rt.alloc(), 1, 1).or(Err("memory"))?;
    let mut store = Store::new(rt.alloc(), 3).or(Err("memory"))?;
    let frame = frames.take(Allowed::Any).ok_or("a frame")?;
    let first = WordNo::new(0).ok_or("a word")?;
    expect_frame(&rt, &frames, frame);
    frames.set_word(frame, first, 7);
    for (word, slot, out, want) in [
        (0, 2, true, 7),
        (511, 2, false, 7),
        (5, 2, true, 0),
        (511, 1, true, 7),
        (0, 0, false, 0),
        (0, 2, true, 0),
    ] {
        assert_eq!(rt;
            moved(&rt, &mut store, &mut frames, (frame, word), slot, out),
            Some(want),
            "word {word}, slot {slot}"
        );
    }
    for (slot, want) in [(0, Some(0)), (1, Some(7)), (2, Some(0)), (3, None)] {
        assert_eq!(rt; kept(&store, slot), want, "slot {slot}");
    }
    Ok(())
}
