//! The facts of actors.
ghost use Rattle.std.specs.Prelude.{◌≡◌, ℕ, ◌++◌, ◌≤◌, length, OnOk, [], ◌∷◌};
ghost use Rattle.arrayvec.specs.ArrayVec.{ArrayVec as ArrayVecValue};
ghost use Rattle.gup_device.specs.Store.{store_of};
ghost use Rattle.gup_image.specs.declared.fact.Fact.TheVariants.{Taken};
ghost use Rattle.gup_image.specs.Gathered.{along};
ghost use Rattle.gup_image.specs.Image.{stored_fact, store_facts, read_page, read_job, seat_fact};

use crate::fact::{Fact, KeptFact, put};
use arrayvec::ArrayVec;
use gup_base::{ActorNo, FrameNo, NoMemory, PageNo};
use gup_device::Store;
use gup_op_base::{JobPlace, WalkPlace};
use gup_op_waits::seats::Seat;

fn actor_no(a: usize) -> ActorNo
    requires { a ≤ 80 }
    ensures { result ≡ a }
{
    ActorNo::new(a as u64).unwrap()
}

/// What the running pins of all actors have taken.
pub(crate) fn push_taken(
    facts: &mut Vec<KeptFact>,
    taken: &Vec<ArrayVec<FrameNo, 16>>,
) -> Result<(), NoMemory>
    requires { length taken.now.items ≤ 81 }
    ensures { OnOk result (facts.new.items ≡ facts.old.items
        ++ along (λ a (pages : ArrayVecValue ℕ). along (λ k frame. Taken a k frame ∷ []) pages.items) taken.now.items) }
{
    for a in 0..taken.len() {
        push_taken_by(facts, actor_no(a), taken[a].as_slice())?;
    }
    Ok(())
}

fn push_taken_by(
    facts: &mut Vec<KeptFact>,
    actor: ActorNo,
    frames: &[FrameNo],
) -> Result<(), NoMemory>
    requires { length frames.now ≤ 16 }
    ensures { OnOk result (facts.new.items ≡ facts.old.items ++ along (λ k frame. Taken actor k frame ∷ []) frames.now) }
{
    for place in 0..frames.len() {
        let frame = frames[place];
        put(
            facts,
            Fact::Taken {
                actor,
                place: place as u8,
                frame,
            },
        )?;
    }
    Ok(())
}

/// The words of all devices.
pub(crate) fn push_stores(
    facts: &mut Vec<KeptFact>,
    stores: &Vec<Option<Store>>,
) -> Result<(), NoMemory>
    requires { length stores.now.items ≤ 81 }
    ensures { OnOk result (facts.new.items ≡ facts.old.items ++ along store_facts stores.now.items) }
{
    for a in 0..stores.len() {
        push_store(facts, actor_no(a), &stores[a])?;
    }
    Ok(())
}

fn push_store(
    facts: &mut Vec<KeptFact>,
    actor: ActorNo,
    store: &Option<Store>,
) -> Result<(), NoMemory>
    ensures { OnOk result (facts.new.items ≡ facts.old.items ++ store_facts actor store.now) }
{
    match store {
        Some(store) => push_words(facts, actor, store),
        None => Ok(()),
    }
}

fn push_words(facts: &mut Vec<KeptFact>, actor: ActorNo, store: &Store) -> Result<(), NoMemory>
    ensures { OnOk result (facts.new.items ≡ facts.old.items ++ along (stored_fact actor) store.now) }
{
    for slot in 0..store.words() {
        push_word(facts, actor, slot, store.word(slot))?;
    }
    Ok(())
}

#[inline]
fn push_word(
    facts: &mut Vec<KeptFact>,
    actor: ActorNo,
    slot: u16,
    value: u64,
) -> Result<(), NoMemory>
    ensures { OnOk result (facts.new.items ≡ facts.old.items ++ stored_fact actor slot value) }
{
    if value > 0 {
        put(facts, Fact::Stored { actor, slot, value })?;
    }
    Ok(())
}

/// Where all actors stand.
pub(crate) fn push_seats(facts: &mut Vec<KeptFact>, seats: &Vec<Seat>) -> Result<(), NoMemory>
    requires { length seats.now.items ≤ 81 }
    ensures { OnOk result (facts.new.items ≡ facts.old.items ++ along seat_fact seats.now.items) }
{
    for a in 0..seats.len() {
        push_seat(facts, actor_no(a), seats[a])?;
    }
    Ok(())
}

fn push_seat(facts: &mut Vec<KeptFact>, actor: ActorNo, seat: Seat) -> Result<(), NoMemory>
    ensures { OnOk result (facts.new.items ≡ facts.old.items ++ seat_fact actor seat) }
{
    put(
        facts,
        Fact::Stands {
            actor,
            far: seat.far,
            answered: seat.answered,
            job: read_part(seat.job),
        },
    )?;
    Ok(())
}

// Where the job stands, but for a page that no turn reads.
fn read_part(job: JobPlace) -> JobPlace
    ensures { result ≡ read_job job }
{
    match job {
        JobPlace::Walking {
            place,
            page,
            sequence,
        } => JobPlace::Walking {
            place,
            page: page_read(&place, page),
            sequence,
        },
        _ => job,
    }
}

fn page_read(place: &WalkPlace, page: PageNo) -> PageNo
    ensures { result ≡ read_page place.now page }
{
    match place {
        WalkPlace::Read { .. } | WalkPlace::Grabbed { .. } | WalkPlace::Rechecked(_) => page,
        WalkPlace::Dropping => page,
        WalkPlace::Entered | WalkPlace::Ready | WalkPlace::Differed(_) => first_page(),
        WalkPlace::Refused | WalkPlace::Stopped => first_page(),
    }
}

fn first_page() -> PageNo
    ensures { result ≡ 0 }
{
    PageNo::new(0).unwrap()
}
