//! What mirror slots note.
ghost use Rattle.std.specs.Prelude.{◌≡◌, Option, None, IfOk, vec_len};
ghost use Rattle.gup_plain.specs.State.{Noted};
ghost use Rattle.gup_exec_parts.specs.Tables.{at_place};

use gup_base::{NoMemory, PageNo, ProcNo};
use std::alloc::Global;
use std::marker::Model;

// How many mirror slots a number can name.
const MIRRORS: u8 = 64;

/// What a mirror slot was filled with: a page of a process, and the object that it named then.
#[derive(Clone, Copy, Debug)]
pub struct Mirror {
    proc: ProcNo,
    page: PageNo,
    object: u64,
}

impl Model for Mirror {
    ghost use Rattle.gup_plain.specs.State.{Noted};

    ghost Value = { Noted };

    ghost view = { λ m. record { proc = m.proc; page = m.page; object = m.object } };

    ghost inverse = { λ v. record { proc = v.proc; page = v.page; object = v.object } };
}

impl Mirror {
    /// A note of the page and its object.
    pub fn new(proc: ProcNo, page: PageNo, object: u64) -> Mirror
        ensures { result ≡ record { proc = proc; page = page; object = object } }
    {
        Mirror { proc, page, object }
    }

    /// The process.
    pub fn proc(&self) -> ProcNo
        ensures { result ≡ self.now.proc }
    {
        self.proc
    }

    /// The page.
    pub fn page(&self) -> PageNo
        ensures { result ≡ self.now.page }
    {
        self.page
    }

    /// The object that the page named.
    pub fn object(&self) -> u64
        ensures { result ≡ self.now.object }
    {
        self.object
    }
}

/// As many mirror slots, not filled, as a number can name.
pub fn mirrors(alloc: Global) -> Result<Vec<Option<Mirror>>, NoMemory>
    ensures len { IfOk result (λ mirrors. vec_len mirrors ≡ 64) }
    ensures empty { IfOk result (λ mirrors. at_place (λ (n : Option Noted). n) None mirrors.items ≡ (λ _. None)) }
{
    let mut mirrors = Vec::new(alloc);
    for _m in 0..MIRRORS {
        mirrors.push(None)?;
    }
    Ok(mirrors)
}
