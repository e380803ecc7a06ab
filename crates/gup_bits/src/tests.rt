ghost use Rattle.std.specs.Prelude.{◌≤◌, IfOk};
ghost use Rattle.gup_bits.specs.Bits.{room_of};

use super::*;
use std::alloc::Global;
use std::process::Abort;
use std::test::Fail;

// The set without numbers, with room for those below this one.
fn empty(alloc: Global, room: usize) -> Result<Bitmap, Fail>
    requires { room ≤ 8192 }
    ensures { IfOk result (λ set. room ≤ room_of set) }
{
    let mut set = Bitmap::below(alloc, room).or(Err("memory"))?;
    for k in 0..room {
        set.remove(k);
    }
    Ok(set)
}

// A set of these two numbers, which may be one, has just them, and none once they are out.
fn holds_two(rt: &impl Abort, alloc: Global, one: usize, other: usize) -> Result<(), Fail> {
    assert!(rt; one < 8_192 && other < 8_192);
    let mut set = empty(alloc, 8_192)?;
    set.insert(one);
    set.insert(other);
    set.insert(one);
    for k in 0..8_200 {
        assert_eq!(rt;
            set.contains(k),
            k == one || k == other,
            "{k} of {one} and {other}"
        );
    }
    set.remove(one);
    set.remove(one);
    assert_eq!(rt; set.contains(other), one != other, "{other} without {one}");
    set.remove(other);
    assert_eq!(rt; set.lowest(0, 8_192), None, "{one} and {other} are out");
    Ok(())
}

#[test]
fn numbers_are_put_in_and_taken_out(rt: HostRuntime) -> Result<(), Fail> {
    for (one, other) in [
        (0, 0),
        (0, 1),
        (0, 63),
        (63, 64),
        (64, 65),
        (64, 128),
        (127, 4_096),
        (8_127, 8_128),
        (0, 8_191),
    ] {
        holds_two(&rt, rt.alloc(), one, other)?;
    }
    Ok(())
}

// The lowest number that a set of these two has, of the `n` from `first` on.
fn lowest_of_two(
    rt: &impl Abort,
    alloc: Global,
    (one, other): (usize, usize),
    (first, n): (usize, usize),
    want: Option<usize>,
) -> Result<(), Fail> {
    assert!(rt; one < 8_192 && other < 8_192 && first <= 8_192 && n <= 8_192 - first);
    let mut set = empty(alloc, 8_192)?;
    assert_eq!(rt; set.lowest(first, n), None);
    set.insert(one);
    set.insert(other);
    assert_eq!(rt;
        set.lowest(first, n),
        want,
        "{n} from {first} on, with {one} and {other}"
    );
    Ok(())
}

#[test]
fn the_lowest_is_found(rt: HostRuntime) -> Result<(), Fail> {
    for (numbers, range, want) in [
        ((0, 8_191), (0, 8_192), Some(0)),
        ((0, 8_191), (1, 8_191), Some(8_191)),
        ((0, 8_191), (1, 8_190), None),
        ((1, 2), (0, 64), Some(1)),
        ((63, 64), (0, 64), Some(63)),
        ((63, 64), (0, 63), None),
        ((63, 64), (64, 1), Some(64)),
        ((64, 65), (0, 64), None),
        ((64, 65), (0, 65), Some(64)),
        ((65, 100), (65, 1), Some(65)),
        ((65, 100), (66, 34), None),
        ((65, 100), (66, 35), Some(100)),
        ((65, 100), (80, 8_112), Some(100)),
        ((65, 100), (101, 8_091), None),
        ((30, 5_000), (31, 8_000), Some(5_000)),
        ((0, 1), (0, 0), None),
        ((0, 8_191), (8_192, 0), None),
        ((8_191, 8_191), (8_191, 1), Some(8_191)),
    ] {
        lowest_of_two(&rt, rt.alloc(), numbers, range, want)?;
    }
    Ok(())
}

// A set of the numbers below this one has just those.
fn is_below(rt: &impl Abort, alloc: Global, n: usize) -> Result<(), Fail> {
    assert!(rt; n <= 8_192);
    let set = Bitmap::below(alloc, n).or(Err("memory"))?;
    for k in 0..8_200 {
        assert_eq!(rt; set.contains(k), k < n, "{k} below {n}");
    }
    assert_eq!(rt; set.lowest(0, n), if n == 0 { None } else { Some(0) });
    assert_eq!(rt; set.lowest(n, 0), None);
    Ok(())
}

#[test]
fn sets_begin_with_the_numbers_below(rt: HostRuntime) -> Result<(), Fail> {
    for n in [0, 1, 63, 64, 65, 127, 128, 1_024, 8_191, 8_192] {
        is_below(&rt, rt.alloc(), n)?;
    }
    Ok(())
}
