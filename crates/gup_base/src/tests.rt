use super::*;
use std::alloc::AllocError;
use std::test::Fail;

#[test]
fn numbers_end_at_their_bounds(rt: HostRuntime) {
    for (kind, last, behind, want) in [
        (
            "page",
            PageNo::new(34_359_738_367).map(|n| n.get()),
            PageNo::new(34_359_738_368).is_none(),
            34_359_738_367,
        ),
        (
            "frame",
            FrameNo::new(16_383).map(|n| n.get()),
            FrameNo::new(16_384).is_none(),
            16_383,
        ),
        (
            "process",
            ProcNo::new(15).map(|n| n.get()),
            ProcNo::new(16).is_none(),
            15,
        ),
        (
            "actor",
            ActorNo::new(80).map(|n| n.get()),
            ActorNo::new(81).is_none(),
            80,
        ),
        (
            "handle",
            HandleNo::new(1_023).map(|n| n.get()),
            HandleNo::new(1_024).is_none(),
            1_023,
        ),
        (
            "mirror slot",
            MirrorNo::new(63).map(|n| n.get()),
            MirrorNo::new(64).is_none(),
            63,
        ),
        (
            "word",
            WordNo::new(511).map(|n| n.get()),
            WordNo::new(512).is_none(),
            511,
        ),
    ] {
        assert_eq!(rt; last, Some(want), "the last {kind}");
        assert!(rt; behind, "behind the last {kind}");
    }
    assert_eq!(rt; FrameNo::default().get(), 0);
}

/// Words as x86-64 lays them out: the number of the frame, the right to write, and the word.
const WORDS: [(u64, bool, u64); 6] = [
    (0, false, 1),
    (0, true, 3),
    (3, false, 12_289),
    (3, true, 12_291),
    (16_383, false, 67_104_769),
    (16_383, true, 67_104_771),
];

#[test]
fn entries_are_words(rt: HostRuntime) -> Result<(), Fail> {
    for (number, writable, word) in WORDS {
        let frame = FrameNo::new(number).ok_or("a frame")?;
        let entry = Some(Entry { frame, writable });
        assert_eq!(rt; pack(entry), word, "frame {number}");
        assert_eq!(rt; unpack(word), entry, "word {word}");
    }
    assert_eq!(rt; pack(None), 0);
    Ok(())
}

#[test]
fn other_words_are_read_by_their_bits(rt: HostRuntime) {
    for word in [0, 2, 12_290, 18_446_744_073_709_551_614] {
        assert_eq!(rt; unpack(word), None, "word {word}");
    }
    for (word, number, writable) in [
        (5, 0, false),
        (4_095, 0, true),
        (4_097, 1, false),
        (67_108_865, 0, false),
        (18_446_744_073_709_551_615, 16_383, true),
    ] {
        let read = unpack(word).map(|entry| (entry.frame.get(), entry.writable));
        assert_eq!(rt; read, Some((number, writable)), "word {word}");
    }
}

#[test]
fn counts_tell_pins_from_other_references(rt: HostRuntime) {
    assert_eq!(rt; with_pin(1), 1_025);
    assert_eq!(rt; without_pin(1_025), 1);
    assert!(rt; !maybe_pinned(1_023));
    assert!(rt; maybe_pinned(1_024));
}

#[test]
fn lists_show_what_was_pushed(rt: HostRuntime) {
    let mut parts = Parts::new();
    assert_eq!(rt; parts.as_slice().len(), 0);
    parts.push(4_294_967_295, 64);
    parts.push(0, 1);
    assert_eq!(rt; parts.as_slice(), [(4_294_967_295, 64), (0, 1)].as_slice());

    let mut words = Words::new();
    assert_eq!(rt; words.as_slice().len(), 0);
    words.push(18_446_744_073_709_551_615);
    words.push(7);
    assert_eq!(rt;
        words.as_slice(),
        [18_446_744_073_709_551_615, 7].as_slice()
    );
}

#[test]
fn want_of_memory_is_told(rt: HostRuntime) -> Result<(), Fail> {
    let full: Result<(), NoMemory> = Err(AllocError.into());
    assert_eq!(rt; full, Err(NoMemory));
    let text = format!(in rt.alloc(); "{NoMemory}")?;
    assert_eq!(rt; text.as_str(), "out of memory");
    Ok(())
}
