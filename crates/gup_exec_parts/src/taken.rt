//! The pages that a running pin has taken.
ghost use Rattle.std.specs.Prelude.{◌≡◌, ◌==◌, not, ◌↔◌, map, filter, IsTrue, All, Contains, MatchOption, IfOk, OnOk, OnErr, [], ◌∷◌, ◌++◌};
ghost use Rattle.std.specs.List.{list_any};
ghost use Rattle.gup_plain.specs.State.{Pending};
ghost use Rattle.gup_plain.specs.Event.{pending_pages, pending_objects, AreTaken, write_flag};

use gup_base::{NoMemory, PageNo};
use std::alloc::Global;
use std::marker::Model;

/// A page that a running pin has taken, the object that it named then, and whether it is to be written.
#[derive(Clone, Copy, Debug)]
pub struct Taken {
    page: PageNo,
    object: u64,
    write: bool,
}

impl Model for Taken {
    ghost use Rattle.gup_plain.specs.State.{Pending};

    ghost Value = { Pending };

    ghost view = { λ t. record { page = t.page; object = t.object; write = t.write } };

    ghost inverse = { λ v. record { page = v.page; object = v.object; write = v.write } };
}

impl Taken {
    /// The page, with its object.
    pub fn new(page: PageNo, object: u64, write: bool) -> Taken
        ensures { result ≡ record { page = page; object = object; write = write } }
    {
        Taken {
            page,
            object,
            write,
        }
    }

    fn page(&self) -> PageNo
        ensures { result ≡ self.now.page }
    {
        self.page
    }

    fn object(&self) -> u64
        ensures { result ≡ self.now.object }
    {
        self.object
    }

    fn write(&self) -> bool
        ensures { result ≡ self.now.write }
    {
        self.write
    }
}

/// Whether the page is among those taken.
pub fn has_page(taken: &[Taken], page: PageNo) -> bool
    ensures { result ≡ list_any (λ (t : Pending). t.page == page) taken.now }
{
    taken.iter().any(|t| t.page() == page)
}

/// Takes one more page, the last.
pub fn push(taken: &mut Vec<Taken>, page: PageNo, object: u64, write: bool) -> Result<(), NoMemory>
    ensures ok { OnOk result (taken.new.items ≡ taken.old.items ++ record { page = page; object = object; write = write } ∷ []) }
    ensures err { OnErr result (taken.new.items ≡ taken.old.items) }
{
    taken.push(Taken::new(page, object, write))?;
    Ok(())
}

/// Lets the page go.
pub fn drop_page(taken: &mut Vec<Taken>, page: PageNo)
    ensures { taken.new.items ≡ filter (λ (t : Pending). not (t.page == page)) taken.old.items }
{
    taken.retain(|t| t.page() != page);
}

/// Whether the pages are to be written, where there is one and they agree.
pub fn agreed(taken: &[Taken]) -> Option<bool>
    ensures { MatchOption result (AreTaken taken.now (write_flag taken.now) → ⊥) (λ write. AreTaken taken.now write × (write ≡ write_flag taken.now)) }
{
    let Some(first) = taken.first() else {
        return None;
    };
    let write = first.write();
    if all_write(taken, write) {
        Some(write)
    } else {
        None
    }
}

fn all_write(taken: &[Taken], write: bool) -> bool
    ensures { IsTrue result ↔ All (λ (t : Pending). t.write ≡ write) taken.now }
{
    taken.iter().all(|t| t.write() == write)
}

/// The objects of the pages, in order.
pub fn objects(alloc: Global, taken: &[Taken]) -> Result<Vec<u64>, NoMemory>
    ensures { IfOk result (λ objects. objects.items ≡ pending_objects taken.now) }
{
    Ok(taken.iter().map(|t| t.object()).collect(alloc)?)
}
