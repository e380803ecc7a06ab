ghost use Rattle.std.specs.Prelude.{◌≡◌, ◌+◌, ◌-◌, ◌<◌, ◌≤◌, ◌^◌, nat_le};
ghost use Rattle.gup_base.specs.Counts.{bias};

/// What a pin adds to the count of its frame, so that a count tells pins from other references (Linux's
/// `GUP_PIN_COUNTING_BIAS`, `include/linux/mm.h`).
pub const PIN_BIAS: u64 = 1_024;

/// The count with a pin more (Linux's `try_grab_folio`, `mm/gup.c`).
pub fn with_pin(count: u64) -> u64
    requires few { count < 2 ^ 40 }
    ensures { result ≡ count + bias }
{
    count + PIN_BIAS
}

/// The count with a pin less (Linux's `gup_put_folio`, `mm/gup.c`).
pub fn without_pin(count: u64) -> u64
    requires pinned { bias ≤ count }
    ensures { result ≡ count - bias }
{
    count - PIN_BIAS
}

/// Whether a frame of this count may be pinned: many other references look like a pin, and no pin is missed (Linux's
/// `folio_maybe_dma_pinned`, `include/linux/mm.h`).
pub fn maybe_pinned(count: u64) -> bool
    ensures { result ≡ nat_le bias count }
{
    count >= PIN_BIAS
}
