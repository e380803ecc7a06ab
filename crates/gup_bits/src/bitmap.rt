//! A set of numbers, a bit for each.
ghost use Rattle.std.specs.Prelude.{◌≡◌, ℕ, ◌+◌, ◌*◌, ◌<◌, ◌≤◌, nat_lt, true, false, length, IfOk};
ghost use Rattle.gup_plain.specs.Put.{put, lowest};
ghost use Rattle.gup_bits.specs.Bits.{has, room_of};

use gup_base::NoMemory;
use std::alloc::Global;
use std::marker::Model;

/// A set of numbers below 8,192, with room for those below a number that is fixed when it is made, and up to 63 more.
/// Contracts see its words, of which each has 64 numbers: they read them by `has`, and their room by `room_of`.
#[derive(Drop)]
pub struct Bitmap {
    words: Vec<u64>,
}

impl Model for Bitmap {
    ghost use Rattle.std.specs.Prelude.{ℕ, ◌≤◌, List, length};

    ghost Value = { List ℕ };

    ghost view = { λ b. b.words.items };

    ghost invariant = { λ b. length b.words.items ≤ 128 };
}

impl Bitmap {
    /// The set of the numbers below `n`, which is at most 8,192, with room for them. It takes all the memory that the
    /// set will ever need.
    pub fn below(alloc: Global, n: usize) -> Result<Bitmap, NoMemory>
        requires { n ≤ 8192 }
        ensures set { IfOk result (λ set. has set ≡ (λ k. nat_lt k n)) }
        ensures room { IfOk result (λ set. n ≤ room_of set) }
    {
        let words = vec![in alloc; 0; n.div_ceil(64)]?;
        let mut set = Bitmap { words };
        for k in 0..n {
            set.insert(k);
        }
        Ok(set)
    }

    /// Puts the number in, for which there is room. It may be in already.
    #[inline]
    pub fn insert(&mut self, k: usize)
        requires { k < room_of self.old }
        ensures set { has self.new ≡ put k true (has self.old) }
        ensures room { room_of self.new ≡ room_of self.old }
    {
        self.words[k / 64] |= 1 << (k % 64);
    }

    /// Takes the number out, for which there is room. It may be out already.
    #[inline]
    pub fn remove(&mut self, k: usize)
        requires { k < room_of self.old }
        ensures set { has self.new ≡ put k false (has self.old) }
        ensures room { room_of self.new ≡ room_of self.old }
    {
        self.words[k / 64] &= !(1 << (k % 64));
    }

    /// Whether the number is in the set. One for which there is no room is not.
    #[inline]
    pub fn contains(&self, k: usize) -> bool
        ensures { result ≡ has self.now k }
    {
        match self.words.get(k / 64) {
            Some(word) => (word >> (k % 64)) & 1 == 1,
            None => false,
        }
    }

    /// The lowest of the `n` numbers from `first` on that is in the set, and `None` exactly where none of them is. There is
    /// room for all of them. It looks at each word once, from that of the first number on.
    #[inline]
    pub fn lowest(&self, first: usize, n: usize) -> Option<usize>
        requires { first + n ≤ room_of self.now }
        ensures { result ≡ lowest first n (has self.now) }
    {
        let words = self.words.as_slice();
        let end = first + n;
        let mut low = first;
        while low < end {
            let word = words[low / 64];
            let rest = word >> (low % 64);
            if rest != 0 {
                let found = low + rest.trailing_zeros() as usize;
                return if found < end { Some(found) } else { None };
            }
            low = (low / 64 + 1) * 64;
        }
        None
    }
}
