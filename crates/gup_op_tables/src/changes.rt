//! Page tables that are added, and that go.
ghost use Rattle.std.specs.Prelude.{◌≡◌, ℕ, ◌+◌, ◌<◌, ◌≤◌, length, IfSome, MatchOption};
ghost use Rattle.gup_plain.specs.Event.{page_numbers};
ghost use Rattle.gup_tables.specs.Pool.{pool_of};
ghost use Rattle.gup_space.specs.Space.{space_of};
ghost use Rattle.gup_space.specs.Shows.{ShowsPool};
ghost use Rattle.gup_spec_events.specs.State.{CoreState};
ghost use Rattle.gup_spec_events.specs.Event.{run};
ghost use Rattle.gup_spec_turns.specs.TableTurns.{grows_at, retires_at, retires_mapped};
ghost use Rattle.gup_op_tables.specs.Spots.{spot_of};
ghost use Rattle.gup_op_tables.specs.Alike.{IsAlike, IsGrown, EachPair, ShowsEach};
ghost use Rattle.gup_maps.specs.Maps.{IsNextPage};
ghost use Rattle.gup_op_tables.specs.Released.{HasNone, OwnsAt};

use crate::pages::Spot;
use gup_base::{PageNo, ProcNo};
use gup_space::{Space, growth_is_events, shrinking_is_events};
use gup_tables::Pool;

/// Gives the page the tables that it lacks, as [`Space::grow`] does, or none where too few are free. Where there is no page nothing
/// changes.
#[inline(always)]
pub fn grow(spaces: &mut [Space], pool: &mut Pool, at: Option<Spot>)
    requires there { IfSome at (λ x. x.proc < length spaces.old) }
    requires own { IfSome at (λ x. OwnsAt spaces.old x.proc (pool_of pool.old)) }
    ensures many { length spaces.new ≡ length spaces.old }
    ensures grown { EachPair IsGrown spaces.old spaces.new }
    ensures none { at ≡ None → spaces.new ≡ spaces.old }
    ensures pool { (pool_of pool.new).tables ≡ (pool_of pool.old).tables }
    ensures leads { (s : CoreState) (a : ℕ) → ShowsPool (pool_of pool.old) s → ShowsEach spaces.old s
        → ShowsPool (pool_of pool.new) (run s (grows_at s a (spot_of at))) × ShowsEach spaces.new (run s (grows_at s a (spot_of at))) }
{
    let Some(at) = at else {
        return;
    };
    growth_is_events();
    let _grown = spaces[at.proc.get() as usize].grow(pool, at.page);
}

/// Takes the empty tables of the page's path out, as [`Space::retire`] does. Where there is no page nothing changes.
#[inline(always)]
pub fn retire(spaces: &mut [Space], pool: &mut Pool, at: Option<Spot>)
    requires there { IfSome at (λ x. x.proc < length spaces.old) }
    requires own { IfSome at (λ x. OwnsAt spaces.old x.proc (pool_of pool.old)) }
    ensures many { length spaces.new ≡ length spaces.old }
    ensures alike { EachPair IsAlike spaces.old spaces.new }
    ensures owned { IfSome at (λ x. OwnsAt spaces.new x.proc (pool_of pool.new)) }
    ensures pool { (pool_of pool.new).tables ≡ (pool_of pool.old).tables }
    ensures leads { (s : CoreState) (a : ℕ) → ShowsPool (pool_of pool.old) s → ShowsEach spaces.old s
        → ShowsPool (pool_of pool.new) (run s (retires_at s a (spot_of at))) × ShowsEach spaces.new (run s (retires_at s a (spot_of at))) }
{
    let Some(at) = at else {
        return;
    };
    shrinking_is_events();
    spaces[at.proc.get() as usize].retire(pool, at.page);
}

/// Takes the tables of a failed child of a fork out, all but the root: the empty ones of each page that its parent has mapped, from the
/// lowest page up.
pub fn release(spaces: &mut [Space], pool: &mut Pool, parent: ProcNo, child: ProcNo)
    requires parent { parent < length spaces.old }
    requires child { child < length spaces.old }
    requires own { OwnsAt spaces.old child (pool_of pool.old) }
    ensures many { length spaces.new ≡ length spaces.old }
    ensures alike { EachPair IsAlike spaces.old spaces.new }
    ensures pool { (pool_of pool.new).tables ≡ (pool_of pool.old).tables }
    ensures leads { (s : CoreState) (a : ℕ) → ShowsPool (pool_of pool.old) s → ShowsEach spaces.old s
        → ShowsPool (pool_of pool.new) (run s (retires_mapped s a child (s.right parent) 0 page_numbers))
        × ShowsEach spaces.new (run s (retires_mapped s a child (s.right parent) 0 page_numbers)) }
{
    let mut from = 0;
    while let Some(page) = page_from(&spaces[parent.get() as usize], from) {
        retire(spaces, pool, Some(Spot { proc: child, page }));
        from = page.get() + 1;
    }
}

// The least mapped page of this number or a higher one.
fn page_from(space: &Space, from: u64) -> Option<PageNo>
    ensures { MatchOption result (HasNone (space_of space.now).right from) (IsNextPage (space_of space.now).right from) }
{
    let Some(from) = PageNo::new(from) else {
        return None;
    };
    space.next_page(from)
}
