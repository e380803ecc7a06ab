//! The laws of images: machines have the same image exactly where they show the same states.

ghost use Rattle.std.specs.Prelude.{◌≡◌, ℕ, Some, slice_get};
ghost use Rattle.gup_notify.specs.Mirrors.{mirrors_of};
ghost use Rattle.gup_notify.specs.Shows.{ShowsMirrors};
ghost use Rattle.gup_op_waits.specs.Parts.{ShowsParts};
ghost use Rattle.gup_space.specs.Shows.{ShowsPool};
ghost use Rattle.gup_tables.specs.Pool.{pool_of};
ghost use Rattle.gup_op_waits.specs.declared.seats.Seat.{Seat};
ghost use Rattle.gup_spec_events.specs.State.{CoreState};
ghost use Rattle.gup_image.specs.Alike.{Imaged, AreOfOne, IsSameSeat, AreSameSeats, image_in};

/// Machines of one script that have the same image show the same states, and their actors stand at the same places.
pub fn images_are_exact()
    ensures parts { (m n : Imaged) (s : CoreState) → AreOfOne m n → image_in m ≡ image_in n → ShowsParts n.parts s → ShowsParts m.parts s }
    ensures mirrors { (m n : Imaged) (s : CoreState) → AreOfOne m n → image_in m ≡ image_in n → ShowsMirrors (mirrors_of n.mirrors) s → ShowsMirrors (mirrors_of m.mirrors) s }
    ensures pool { (m n : Imaged) (s : CoreState) → AreOfOne m n → image_in m ≡ image_in n → ShowsPool (pool_of n.pool) s → ShowsPool (pool_of m.pool) s }
    ensures seats { (m n : Imaged) → AreOfOne m n → image_in m ≡ image_in n → AreSameSeats m.seats n.seats }
{}

/// Machines of one script that show the same state, and whose actors stand at the same places, have the same image.
pub fn images_are_of_states()
    ensures { (m n : Imaged) (s : CoreState) → AreOfOne m n → ShowsParts m.parts s → ShowsParts n.parts s
        → ShowsMirrors (mirrors_of m.mirrors) s → ShowsMirrors (mirrors_of n.mirrors) s
        → ShowsPool (pool_of m.pool) s → ShowsPool (pool_of n.pool) s → AreSameSeats m.seats n.seats → image_in m ≡ image_in n }
{}
