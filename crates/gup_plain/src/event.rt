use gup_base::{ActorNo, HandleNo, MirrorNo, PageNo, ProcNo, Rights, WordNo};

/// One step of the plain model. Contracts say when a step can happen and what it changes by `CanHappen` and
/// `happened`; all else stays. A page is named where its process is born and has it mapped.
#[derive(Clone, Copy, Debug, PartialEq, Eq, Hash)]
pub enum PlainEvent {
    /// The `n` pages from `page` on get a fresh object of zeros each, with these rights. None of them is mapped
    /// before, the last is below 2^35, and the process has at most 1,024 mapped pages afterwards.
    Map {
        actor: ActorNo,
        proc: ProcNo,
        page: PageNo,
        n: u16,
        rights: Rights,
    },
    /// The page, which is named, names no object any more. The object stays.
    Unmap {
        actor: ActorNo,
        proc: ProcNo,
        page: PageNo,
    },
    /// The page, which is named, names a fresh object of zeros. Its rights stay, and so does the old object.
    Discard {
        actor: ActorNo,
        proc: ProcNo,
        page: PageNo,
    },
    /// The `n` pages from `page` on, which are all named, have these rights.
    Protect {
        actor: ActorNo,
        proc: ProcNo,
        page: PageNo,
        n: u16,
        rights: Rights,
    },
    /// The page is named, and the word of its object is read, and is `value`. Nothing changes.
    Load {
        actor: ActorNo,
        proc: ProcNo,
        page: PageNo,
        word: WordNo,
        value: u64,
    },
    /// The page is named, to be written, and the word of its object becomes `value`.
    Store {
        actor: ActorNo,
        proc: ProcNo,
        page: PageNo,
        word: WordNo,
        value: u64,
    },
    /// A pin takes the object that the page names, to write it or not. The page is named, for a write pin to be
    /// written, and the actor's running pin has not taken it before.
    PinTry {
        actor: ActorNo,
        proc: ProcNo,
        page: PageNo,
        write: bool,
    },
    /// The actor's running pin lets go a page that it has taken.
    PinDrop {
        actor: ActorNo,
        page: PageNo,
    },
    /// The pages that the actor's running pin has taken, at least one and all to write or none, become those of
    /// the handle, which was not made before. The actor holds it.
    PinOk {
        actor: ActorNo,
        handle: HandleNo,
    },
    /// The handle, which the actor holds, is gone.
    Unpin {
        actor: ActorNo,
        handle: HandleNo,
    },
    /// The handle, which the actor holds, is given to another actor or to itself.
    Give {
        actor: ActorNo,
        handle: HandleNo,
        to: ActorNo,
    },
    /// The actor holds the handle, which was given to it.
    Take {
        actor: ActorNo,
        handle: HandleNo,
    },
    /// Word `index` of the handle's pages, which is `value`, is copied to a slot of the actor's store. The actor
    /// holds the handle; word i is word i mod 512 of page i / 512.
    MoveOut {
        actor: ActorNo,
        handle: HandleNo,
        index: u32,
        slot: u32,
        value: u64,
    },
    /// A slot of the actor's store, which is `value`, is copied to word `index` of the handle's pages. The actor
    /// holds the handle, and its pin is one to write.
    MoveIn {
        actor: ActorNo,
        handle: HandleNo,
        index: u32,
        slot: u32,
        value: u64,
    },
    /// The mirror slot notes the page, which is named, and its object.
    MirrorFill {
        actor: ActorNo,
        mirror: MirrorNo,
        proc: ProcNo,
        page: PageNo,
    },
    /// The page that the mirror slot notes still names the object noted with it; the word of that is read, and is
    /// `value`. Nothing changes.
    Look {
        actor: ActorNo,
        mirror: MirrorNo,
        word: WordNo,
        value: u64,
    },
    /// The child, which was unborn, begins to grow: it has the pages of its parent, which is born, with their
    /// rights and a fresh object of zeros each.
    ForkBegin {
        parent: ProcNo,
        child: ProcNo,
    },
    /// All 512 words of the page are copied to the growing child. None of them was before.
    ForkPage {
        parent: ProcNo,
        child: ProcNo,
        page: PageNo,
    },
    /// The word of the child's page becomes that of its parent's page at this moment. Both have the page, and the
    /// word was not copied before.
    ForkWord {
        parent: ProcNo,
        child: ProcNo,
        page: PageNo,
        word: WordNo,
    },
    /// The child, of which each word of each page is copied, is born.
    ForkEnd {
        parent: ProcNo,
        child: ProcNo,
    },
    /// The child, which was unborn or growing, has failed, for good, and has no pages.
    ForkFail {
        child: ProcNo,
    },
}
