//! Numbers that can't be out of range. Each type holds a number below the bound of what it names, and a
//! contract sees it as that number.
ghost use Rattle.std.specs.Prelude.{◌≡◌, ◌^◌, ◌<◌, IsSome, IfSome, ◌↔◌};

use std::marker::Model;

/// The number of a page of a process's memory, below 2^35: an address of 47 bits, divided by the 4,096 bytes of a
/// page. The last of these pages is a number too; Linux on x86-64 keeps it from programs (`TASK_SIZE_MAX`).
#[derive(Clone, Copy, Debug, PartialEq, Eq, PartialOrd, Ord, Hash)]
pub struct PageNo {
    number: u64,
}

impl Model for PageNo {
    ghost use Rattle.std.specs.Prelude.{ℕ, ◌^◌, ◌<◌};

    ghost Value = { ℕ };

    ghost view = { λ n. n.number };

    ghost invariant = { λ n. n.number < 2 ^ 35 };

    ghost inverse = { λ v. record { number = v } };
}

impl PageNo {
    /// The number as this type; `None` exactly from the bound on.
    pub const fn new(v: u64) -> Option<Self>
        ensures some { IsSome result ↔ (v < 2 ^ 35) }
        ensures value { IfSome result (λ n. n ≡ v) }
    {
        if v < 1 << 35 {
            Some(PageNo { number: v })
        } else {
            None
        }
    }

    /// The number, which is below the bound.
    pub fn get(self) -> u64
        ensures value { result ≡ self }
        ensures below { result < 2 ^ 35 }
    {
        self.number
    }
}

/// The number of a frame, below 16,384: it takes 14 bits of a packed entry. The default is 0, which stands in the unused
/// places of short lists.
#[derive(Clone, Copy, Debug, Default, PartialEq, Eq, PartialOrd, Ord, Hash)]
pub struct FrameNo {
    number: u16,
}

impl Model for FrameNo {
    ghost use Rattle.std.specs.Prelude.{ℕ, ◌^◌, ◌<◌};

    ghost Value = { ℕ };

    ghost view = { λ n. n.number };

    ghost invariant = { λ n. n.number < 16384 };

    ghost inverse = { λ v. record { number = v } };
}

impl FrameNo {
    /// The number as this type; `None` exactly from the bound on.
    pub const fn new(v: u64) -> Option<Self>
        ensures some { IsSome result ↔ (v < 16384) }
        ensures value { IfSome result (λ n. n ≡ v) }
    {
        if v < 16_384 {
            Some(FrameNo { number: v as u16 })
        } else {
            None
        }
    }

    /// The number, which is below the bound.
    pub fn get(self) -> u64
        ensures value { result ≡ self }
        ensures below { result < 16384 }
    {
        u64::from(self.number)
    }
}

/// The number of a process in the order of a script's declarations, below 16.
#[derive(Clone, Copy, Debug, PartialEq, Eq, PartialOrd, Ord, Hash)]
pub struct ProcNo {
    number: u8,
}

impl Model for ProcNo {
    ghost use Rattle.std.specs.Prelude.{ℕ, ◌^◌, ◌<◌};

    ghost Value = { ℕ };

    ghost view = { λ n. n.number };

    ghost invariant = { λ n. n.number < 16 };

    ghost inverse = { λ v. record { number = v } };
}

impl ProcNo {
    /// The number as this type; `None` exactly from the bound on.
    pub const fn new(v: u64) -> Option<Self>
        ensures some { IsSome result ↔ (v < 16) }
        ensures value { IfSome result (λ n. n ≡ v) }
    {
        if v < 16 {
            Some(ProcNo { number: v as u8 })
        } else {
            None
        }
    }

    /// The number, which is below the bound.
    pub fn get(self) -> u64
        ensures value { result ≡ self }
        ensures below { result < 16 }
    {
        u64::from(self.number)
    }
}

/// The number of an actor in the order of a script's declarations, below 81: 64 threads, 16 devices, one mover.
#[derive(Clone, Copy, Debug, PartialEq, Eq, PartialOrd, Ord, Hash)]
pub struct ActorNo {
    number: u8,
}

impl Model for ActorNo {
    ghost use Rattle.std.specs.Prelude.{ℕ, ◌^◌, ◌<◌};

    ghost Value = { ℕ };

    ghost view = { λ n. n.number };

    ghost invariant = { λ n. n.number < 81 };

    ghost inverse = { λ v. record { number = v } };
}

impl ActorNo {
    /// The number as this type; `None` exactly from the bound on.
    pub const fn new(v: u64) -> Option<Self>
        ensures some { IsSome result ↔ (v < 81) }
        ensures value { IfSome result (λ n. n ≡ v) }
    {
        if v < 81 {
            Some(ActorNo { number: v as u8 })
        } else {
            None
        }
    }

    /// The number, which is below the bound.
    pub fn get(self) -> u64
        ensures value { result ≡ self }
        ensures below { result < 81 }
    {
        u64::from(self.number)
    }
}

/// The number of a handle in the order of a script's declarations, below 1,024.
#[derive(Clone, Copy, Debug, PartialEq, Eq, PartialOrd, Ord, Hash)]
pub struct HandleNo {
    number: u16,
}

impl Model for HandleNo {
    ghost use Rattle.std.specs.Prelude.{ℕ, ◌^◌, ◌<◌};

    ghost Value = { ℕ };

    ghost view = { λ n. n.number };

    ghost invariant = { λ n. n.number < 1024 };

    ghost inverse = { λ v. record { number = v } };
}

impl HandleNo {
    /// The number as this type; `None` exactly from the bound on.
    pub const fn new(v: u64) -> Option<Self>
        ensures some { IsSome result ↔ (v < 1024) }
        ensures value { IfSome result (λ n. n ≡ v) }
    {
        if v < 1_024 {
            Some(HandleNo { number: v as u16 })
        } else {
            None
        }
    }

    /// The number, which is below the bound.
    pub fn get(self) -> u64
        ensures value { result ≡ self }
        ensures below { result < 1024 }
    {
        u64::from(self.number)
    }
}

/// The number of a mirror slot in the order of a script's declarations, below 64.
#[derive(Clone, Copy, Debug, PartialEq, Eq, PartialOrd, Ord, Hash)]
pub struct MirrorNo {
    number: u8,
}

impl Model for MirrorNo {
    ghost use Rattle.std.specs.Prelude.{ℕ, ◌^◌, ◌<◌};

    ghost Value = { ℕ };

    ghost view = { λ n. n.number };

    ghost invariant = { λ n. n.number < 64 };

    ghost inverse = { λ v. record { number = v } };
}

impl MirrorNo {
    /// The number as this type; `None` exactly from the bound on.
    pub const fn new(v: u64) -> Option<Self>
        ensures some { IsSome result ↔ (v < 64) }
        ensures value { IfSome result (λ n. n ≡ v) }
    {
        if v < 64 {
            Some(MirrorNo { number: v as u8 })
        } else {
            None
        }
    }

    /// The number, which is below the bound.
    pub fn get(self) -> u64
        ensures value { result ≡ self }
        ensures below { result < 64 }
    {
        u64::from(self.number)
    }
}

/// The number of a word within its page, below 512: a page has 4,096 bytes, and a word 8.
#[derive(Clone, Copy, Debug, PartialEq, Eq, PartialOrd, Ord, Hash)]
pub struct WordNo {
    number: u16,
}

impl Model for WordNo {
    ghost use Rattle.std.specs.Prelude.{ℕ, ◌^◌, ◌<◌};

    ghost Value = { ℕ };

    ghost view = { λ n. n.number };

    ghost invariant = { λ n. n.number < 512 };

    ghost inverse = { λ v. record { number = v } };
}

impl WordNo {
    /// The number as this type; `None` exactly from the bound on.
    pub const fn new(v: u64) -> Option<Self>
        ensures some { IsSome result ↔ (v < 512) }
        ensures value { IfSome result (λ n. n ≡ v) }
    {
        if v < 512 {
            Some(WordNo { number: v as u16 })
        } else {
            None
        }
    }

    /// The number, which is below the bound.
    pub fn get(self) -> u64
        ensures value { result ≡ self }
        ensures below { result < 512 }
    {
        u64::from(self.number)
    }
}
