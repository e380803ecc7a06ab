//! The image of all parts.
ghost use Rattle.std.specs.Prelude.{◌≡◌, ◌≤◌, length, IfOk};
ghost use Rattle.gup_frames.specs.Frames.{frames_of, frames_in};
ghost use Rattle.gup_tables.specs.Pool.{pool_of};
ghost use Rattle.gup_op_base.specs.Tidy.{AreNumbered};
ghost use Rattle.gup_op_waits.specs.Parts.{EachSpace};
ghost use Rattle.gup_image.specs.Image.{image_of, HasNoMore};

use crate::actors::{push_seats, push_stores, push_taken};
use crate::fact::{Fact, KeptFact, put};
use crate::frames::push_frames;
use crate::handles::{push_handles, push_slots};
use crate::processes::push_processes;
use crate::tables::push_used;
use gup_base::NoMemory;
use gup_notify::Mirrors;
use gup_op_waits::Parts;
use gup_op_waits::seats::Seat;
use gup_tables::Pool;
use std::alloc::Global;

/// The facts of a machine that is made of these, in a fixed order: two machines have the same facts exactly where they show the same
/// states ([`crate::images_are_exact`], [`crate::images_are_of_states`]).
pub fn image(
    alloc: Global,
    parts: &Parts,
    mirrors: &Mirrors,
    seats: &Vec<Seat>,
    pool: &Pool,
) -> Result<Vec<KeptFact>, NoMemory>
    requires frames { frames_in (frames_of parts.now.frames) ≤ 1024 }
    requires processes { length parts.now.spaces.items ≤ 16 }
    requires births { length parts.now.births.items ≡ length parts.now.spaces.items }
    requires taken { length parts.now.taken.items ≤ 81 }
    requires stores { length parts.now.stores.items ≤ 81 }
    requires seats { length seats.now.items ≤ 81 }
    requires numbered { EachSpace AreNumbered parts.now.spaces.items }
    ensures { IfOk result (λ facts. facts.items ≡ image_of parts.now mirrors.now seats.now.items (pool_of pool.now)) }
{
    let mut facts = Vec::new(alloc);
    put(
        &mut facts,
        Fact::Zones {
            movable: parts.frames.movable(),
            normal: parts.frames.normal(),
        },
    )?;
    push_frames(&mut facts, &parts.frames)?;
    pool.is_within();
    push_processes(&mut facts, parts, pool.tables())?;
    push_used(&mut facts, pool)?;
    push_handles(&mut facts, &parts.handles)?;
    push_slots(&mut facts, mirrors)?;
    push_taken(&mut facts, &parts.taken)?;
    push_stores(&mut facts, &parts.stores)?;
    push_seats(&mut facts, seats)?;
    Ok(facts)
}

/// A law: nothing is past what an image goes over.
pub fn is_whole(parts: &Parts, mirrors: &Mirrors, pool: &Pool)
    ensures { HasNoMore parts.now mirrors.now (pool_of pool.now) }
{
    parts.frames.are_there();
    parts.handles.are_numbered();
    mirrors.are_numbered();
    pool.is_within();
}
