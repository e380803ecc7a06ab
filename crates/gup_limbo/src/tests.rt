use super::*;
use std::alloc::Global;
use std::process::Abort;
use std::test::Fail;

// What reclaiming comes to: a letter, and what it tells.
fn reclaimed(limbo: &mut Limbo<u32>) -> (char, u64) {
    match limbo.reclaim() {
        Reclaim::Kept(walks) => ('k', walks),
        Reclaim::Empty => ('e', 0),
        Reclaim::Free(item) => ('f', u64::from(item)),
    }
}

// So much waits, behind one walk more, one less or as many as before, and reclaiming comes to this.
fn reclaims(
    rt: &impl Abort,
    limbo: &mut Limbo<u32>,
    change: char,
    waiting: usize,
    want: (char, u64),
) {
    if change == '+' {
        assert!(rt; limbo.walks() < 9);
        limbo.enter();
    }
    if change == '-' {
        assert!(rt; limbo.walks() > 0);
        limbo.leave();
    }
    assert_eq!(rt; limbo.items().count(), waiting);
    assert_eq!(rt; reclaimed(limbo), want, "{waiting} wait");
}

// Three wait, 7 the longest.
fn three(alloc: Global) -> Result<Limbo<u32>, Fail> {
    let mut limbo = Limbo::new(alloc, 3)?;
    limbo.retire(7);
    limbo.retire(5);
    limbo.retire(6);
    Ok(limbo)
}

#[test]
fn walks_keep_what_waits(rt: HostRuntime) -> Result<(), Fail> {
    let mut limbo = three(rt.alloc())?;
    for (change, waiting, want) in [
        ('+', 3, ('k', 1)),
        ('+', 3, ('k', 2)),
        ('-', 3, ('k', 1)),
        ('-', 3, ('f', 7)),
        (' ', 2, ('f', 5)),
        ('+', 1, ('k', 1)),
        ('-', 1, ('f', 6)),
        (' ', 0, ('e', 0)),
        ('+', 0, ('k', 1)),
        ('-', 0, ('e', 0)),
    ] {
        reclaims(&rt, &mut limbo, change, waiting, want);
    }
    Ok(())
}

#[test]
fn nothing_waits_in_no_room(rt: HostRuntime) -> Result<(), Fail> {
    let mut limbo = Limbo::new(rt.alloc(), 0)?;
    for (change, want) in [(' ', ('e', 0)), ('+', ('k', 1)), ('-', ('e', 0))] {
        reclaims(&rt, &mut limbo, change, 0, want);
    }
    Ok(())
}
