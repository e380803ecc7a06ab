//! Whether processes have come into being, and which words of which pages are copied while they grow.
ghost use Rattle.std.specs.Prelude.{◌≡◌, ℕ, false, true, ◌↔◌, IsTrue, IsSome, OnOk, IfOk, vec_len};
ghost use Rattle.gup_plain.specs.Put.{put, put2, spread};
ghost use Rattle.gup_plain.specs.State.{unborn, growing, born, failed};
ghost use Rattle.gup_exec_parts.specs.Space.{seen};

use gup_base::{NoMemory, PageNo, ProcNo, WordNo};
use gup_exec_parts::space::{self, Birth, Space};
use std::alloc::Global;
use std::collections::BTreeMap;

/// The births of processes, and the words that are copied.
#[derive(Drop)]
pub struct Procs {
    spaces: Vec<Space>,
    alloc: Global,
    ghost sized: { vec_len spaces ≡ 16 },
}

impl Procs {
    ghost use Rattle.gup_exec_rows.specs.Procs.{births, copies, space_at, HasRoom};

    /// No process is born.
    pub fn new(alloc: Global) -> Result<Procs, NoMemory>
        ensures births { IfOk result (λ procs. births procs ≡ (λ _. unborn)) }
        ensures copies { IfOk result (λ procs. copies procs ≡ (λ _ _ _. false)) }
    {
        Ok(Procs {
            spaces: space::spaces(alloc)?,
            alloc,
        })
    }

    // The process.
    #[tactic(auto, unfolding(crate::specs::Procs::space_at))]
    fn space(&self, p: ProcNo) -> &Space
        ensures { seen result.now ≡ space_at self.now p }
    {
        &self.spaces[p.get() as usize]
    }

    /// Whether the process is born.
    #[tactic(auto, unfolding(crate::specs::Procs::births))]
    pub fn is_born(&self, p: ProcNo) -> bool
        ensures { IsTrue result ↔ (births self.now p ≡ born) }
    {
        self.space(p).is_born()
    }

    /// Whether the process is unborn.
    #[tactic(auto, unfolding(crate::specs::Procs::births))]
    pub fn is_unborn(&self, p: ProcNo) -> bool
        ensures { IsTrue result ↔ (births self.now p ≡ unborn) }
    {
        self.space(p).is_unborn()
    }

    /// Whether the process has failed.
    #[tactic(auto, unfolding(crate::specs::Procs::births))]
    pub fn has_failed(&self, p: ProcNo) -> bool
        ensures { IsTrue result ↔ (births self.now p ≡ failed) }
    {
        match self.space(p).birth {
            Birth::Failed => true,
            Birth::Unborn | Birth::Growing(_) | Birth::Born => false,
        }
    }

    /// The process begins to grow from its parent.
    pub fn grow(&mut self, p: ProcNo, parent: ProcNo)
        ensures births { births self.new ≡ put p (growing parent) (births self.old) }
        ensures copies { copies self.new ≡ put p (λ _ _. false) (copies self.old) }
    {
        let pages = BTreeMap::new(self.alloc);
        let space = &mut self.spaces[p.get() as usize];
        space.grow(parent, pages);
    }

    /// The process is born.
    pub fn be_born(&mut self, p: ProcNo)
        ensures births { births self.new ≡ put p born (births self.old) }
        ensures copies { copies self.new ≡ put p (λ _ _. false) (copies self.old) }
    {
        let space = &mut self.spaces[p.get() as usize];
        space.be_born();
    }

    /// The process has failed.
    pub fn fail(&mut self, p: ProcNo)
        ensures births { births self.new ≡ put p failed (births self.old) }
        ensures copies { copies self.new ≡ put p (λ _ _. false) (copies self.old) }
    {
        let space = &mut self.spaces[p.get() as usize];
        space.fail();
    }

    /// Makes room to say which words of the page are copied. Nothing is by that.
    pub fn touch(&mut self, p: ProcNo, page: PageNo) -> Result<(), NoMemory>
        ensures room { OnOk result (HasRoom self.new p page) }
        ensures births { births self.new ≡ births self.old }
        ensures copies { copies self.new ≡ copies self.old }
    {
        let alloc = self.alloc;
        let space = &mut self.spaces[p.get() as usize];
        space.touch(alloc, page)
    }

    /// One word of the page is copied.
    pub fn copy_word(&mut self, p: ProcNo, page: PageNo, word: WordNo)
        requires { HasRoom self.old p page }
        ensures births { births self.new ≡ births self.old }
        ensures copies { copies self.new ≡ put2 p page (put word true (copies self.old p page)) (copies self.old) }
    {
        let space = &mut self.spaces[p.get() as usize];
        space.copy_word(page, word);
    }

    /// All words of the page are copied.
    pub fn copy_page(&mut self, p: ProcNo, page: PageNo)
        requires { HasRoom self.old p page }
        ensures births { births self.new ≡ births self.old }
        ensures copies { copies self.new ≡ put2 p page (spread 0 512 (λ _. true) (copies self.old p page)) (copies self.old) }
    {
        let space = &mut self.spaces[p.get() as usize];
        space.copy_page(page);
    }
}
