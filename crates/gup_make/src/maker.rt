//! Writes the made script line by line.
ghost use Rattle.std.specs.Prelude.{◌≡◌, ◌==◌, if◌then◌else◌, ◌<◌, ◌+◌, ◌∷◌, map, codes, decimal, IfOk, OnOk};
ghost use Rattle.gup_spec_grammar.specs.Outline.{next_state, drawn};
ghost use Rattle.gup_base.specs.declared.entry.Zone.TheVariants.{Movable, Normal};
ghost use Rattle.gup_spec_grammar.specs.Said.{transfer_word, zone_word};
ghost use Rattle.gup_make.specs.Made.{Made, line, load_line, store_line, discard_line, unmap_line, pin_lines, get_lines, thread_lines, transfer_line, first_device, move_line, round, forks_behind, rounds, head, made_text};
ghost use Rattle.gup_make.specs.Written.{more, spelled};

use crate::word::Word::{self, Address, Name, Number, Text};
use gup_base::NoMemory;
use itoa::Buffer;
use std::alloc::Global;
use std::marker::Model;

const MULTIPLIER: u64 = 6_364_136_223_846_793_005;

const INCREMENT: u64 = 1_442_695_040_888_963_407;

const ROUNDS: u32 = 20;

const HEAD: &str =
    "gup 1\nframes 256 256 2048\nprocess p\nchild c1\nchild c2\nthread t1 p\nthread t2 p\nthread t3 c1\nthread t4 c2\ndevice d1 64\ndevice d2 64\nmover m\non t1 map 0 64 rw\non t1 pin h1 0 4 write\non t1 give h1 d1\non t1 pin h2 4 4 read\non t1 give h2 d2\non d1 take h1\non d2 take h2\n";

/// The text that is made from the number, the same for the same number: two processes that fork from a first one, four threads that
/// load, store, discard, unmap, pin and take references, two devices that move words of pins which last, and a mover; its turns are
/// drawn from the number. It is a script whatever the number, as `gup_law_made` proves. The recipe is this project's own, and stands in
/// docs/SCRIPT.md. `NoMemory` where the text finds none.
pub fn make_text(alloc: Global, n: u64) -> Result<Vec<u8>, NoMemory>
    ensures { IfOk result (λ text. text.items ≡ made_text n) }
{
    let mut maker = Maker::new(alloc, n)?;
    maker.rounds()?;
    maker.line("random", &[Number(n), Text("2000")])?;
    Ok(maker.text)
}

// What is made so far.
#[derive(Drop)]
struct Maker {
    text: Vec<u8>,
    state: u64,
    handles: u32,
}

impl Model for Maker {
    ghost use Rattle.gup_make.specs.Made.{Made};

    ghost Value = { Made };

    ghost view = { λ m. record { text = m.text.items; state = m.state; handles = m.handles } };
}

impl Maker {
    fn new(alloc: Global, n: u64) -> Result<Maker, NoMemory>
        ensures { IfOk result (λ maker. maker ≡ record { text = head; state = n; handles = 0 }) }
    {
        let mut text = Vec::new(alloc);
        text.extend_from_slice(HEAD.as_bytes())?;
        Ok(Maker {
            text,
            state: n,
            handles: 0,
        })
    }

    // Draws a number below this one.
    fn draw(&mut self, below: u64) -> u64
        requires { 0 < below }
        ensures number { result ≡ drawn below (next_state self.old.state) }
        ensures below { result < below }
        ensures state { self.new ≡ record self.old { state = next_state self.old.state } }
    {
        self.state = self.state.wrapping_mul(MULTIPLIER).wrapping_add(INCREMENT);
        (self.state >> 33) % below
    }

    fn text(&mut self, piece: &str) -> Result<(), NoMemory>
        ensures { OnOk result (self.new ≡ more piece.now self.old) }
    {
        self.text.extend_from_slice(piece.as_bytes())?;
        Ok(())
    }

    fn number(&mut self, n: u64) -> Result<(), NoMemory>
        ensures { OnOk result (self.new ≡ more (decimal n) self.old) }
    {
        let mut buffer = Buffer::new();
        self.text(buffer.format(n))
    }

    fn word(&mut self, word: &Word) -> Result<(), NoMemory>
        ensures { OnOk result (self.new ≡ more (spelled word.now) self.old) }
    {
        match word {
            Text(text) => self.text(text),
            Number(n) => self.number(*n),
            Name(letter, k) => {
                self.text(letter)?;
                self.number(*k)
            }
            Address(page, word) => {
                self.number(*page)?;
                self.text(".")?;
                self.number(*word)
            }
        }
    }

    // A line of this word and those behind it.
    #[tactic(auto, using(crate::proofs::Lines::line_written))]
    fn line(&mut self, first: &str, words: &[Word]) -> Result<(), NoMemory>
        ensures { OnOk result (self.new ≡ line (first.now ∷ map spelled words.now) self.old) }
    {
        self.text(first)?;
        for word in words {
            self.text(" ")?;
            self.word(word)?;
        }
        self.text("\n")
    }

    // The line that gives the actor to do what these words say.
    fn on(&mut self, actor: &str, words: &[Word]) -> Result<(), NoMemory>
        ensures { OnOk result (self.new ≡ line (codes "on" ∷ actor.now ∷ map spelled words.now) self.old) }
    {
        self.text("on ")?;
        self.line(actor, words)
    }

    fn load(&mut self, thread: &str) -> Result<(), NoMemory>
        ensures { OnOk result (self.new ≡ load_line thread.now self.old) }
    {
        let page = self.draw(64);
        let word = self.draw(512);
        self.on(thread, &[Text("load"), Address(page, word)])
    }

    fn store(&mut self, thread: &str) -> Result<(), NoMemory>
        ensures { OnOk result (self.new ≡ store_line thread.now self.old) }
    {
        let page = self.draw(64);
        let word = self.draw(512);
        let value = self.draw(1000);
        self.on(thread, &[Text("store"), Address(page, word), Number(value)])
    }

    fn discard(&mut self, thread: &str) -> Result<(), NoMemory>
        ensures { OnOk result (self.new ≡ discard_line thread.now self.old) }
    {
        let page = self.draw(56);
        self.on(thread, &[Text("discard"), Number(8 + page), Text("1")])
    }

    fn unmap(&mut self, thread: &str) -> Result<(), NoMemory>
        ensures { OnOk result (self.new ≡ unmap_line thread.now self.old) }
    {
        let page = self.draw(56);
        self.on(thread, &[Text("unmap"), Number(8 + page), Text("1")])
    }

    // A pin by a fast walk, and its unpin.
    fn pin(&mut self, thread: &str) -> Result<(), NoMemory>
        requires { self.old.handles < 1000 }
        ensures { OnOk result (self.new ≡ pin_lines thread.now self.old) }
    {
        let k = self.next_handle();
        let page = self.draw(60);
        let n = self.draw(4);
        self.on(
            thread,
            &[
                Text("pinfast"),
                Name("f", k),
                Number(page),
                Number(1 + n),
                Text("write"),
            ],
        )?;
        self.on(thread, &[Text("unpin"), Name("f", k)])
    }

    // A reference that is got and put back.
    fn get(&mut self, thread: &str) -> Result<(), NoMemory>
        requires { self.old.handles < 1000 }
        ensures { OnOk result (self.new ≡ get_lines thread.now self.old) }
    {
        let k = self.next_handle();
        let page = self.draw(64);
        self.on(thread, &[Text("get"), Name("g", k), Number(page)])?;
        self.on(thread, &[Text("put"), Name("g", k)])
    }

    // The number of a handle more, from 1.
    fn next_handle(&mut self) -> u64
        requires { self.old.handles < 1000 }
        ensures number { result ≡ self.old.handles + 1 }
        ensures counted { self.new ≡ record self.old { handles = self.old.handles + 1 } }
    {
        self.handles += 1;
        u64::from(self.handles)
    }

    // What a thread does in a round.
    fn thread(&mut self, thread: &str) -> Result<(), NoMemory>
        requires { self.old.handles < 1000 }
        ensures { OnOk result (self.new ≡ thread_lines thread.now self.old) }
    {
        match self.draw(8) {
            0 | 1 => self.load(thread),
            2 | 3 => self.store(thread),
            4 => self.discard(thread),
            5 => self.pin(thread),
            6 => self.get(thread),
            _ => self.unmap(thread),
        }
    }

    // A transfer of words.
    fn transfer(&mut self, device: &str, outward: bool, handle: &str) -> Result<(), NoMemory>
        ensures { OnOk result (self.new ≡ transfer_line device.now outward handle.now self.old) }
    {
        let index = self.draw(2040);
        let slot = self.draw(56);
        let n = self.draw(8);
        self.on(
            device,
            &[
                Text(transfer_word(outward)),
                Text(handle),
                Number(index),
                Number(slot),
                Number(1 + n),
            ],
        )
    }

    fn first_device(&mut self) -> Result<(), NoMemory>
        ensures { OnOk result (self.new ≡ first_device self.old) }
    {
        let way = self.draw(2);
        self.transfer("d1", way == 0, "h1")
    }

    fn move_page(&mut self) -> Result<(), NoMemory>
        ensures { OnOk result (self.new ≡ move_line self.old) }
    {
        let page = self.draw(64);
        let zone = self.draw(2);
        self.on(
            "m",
            &[Text("move"), Text("p"), Number(page), Text(zone_word(zone))],
        )
    }

    fn rounds(&mut self) -> Result<(), NoMemory>
        requires { self.old.handles ≡ 0 }
        ensures { OnOk result (self.new ≡ rounds 20 self.old) }
    {
        for k in 0..ROUNDS {
            self.round()?;
            self.forks_behind(k + 1)?;
        }
        Ok(())
    }

    fn round(&mut self) -> Result<(), NoMemory>
        requires { self.old.handles < 900 }
        ensures { OnOk result (self.new ≡ round self.old) }
    {
        self.thread("t1")?;
        self.thread("t2")?;
        self.thread("t3")?;
        self.thread("t4")?;
        self.first_device()?;
        self.transfer("d2", true, "h2")?;
        self.move_page()
    }

    // The fork behind the round with this number, from 1, if there is one.
    fn forks_behind(&mut self, k: u32) -> Result<(), NoMemory>
        ensures { OnOk result (self.new ≡ forks_behind k self.old) }
    {
        match k {
            5 => self.on("t1", &[Text("fork"), Text("c1")]),
            10 => self.on("t2", &[Text("fork"), Text("c2")]),
            _ => Ok(()),
        }
    }
}

fn transfer_word(outward: bool) -> &'static str
    ensures { result.now ≡ transfer_word outward }
{
    if outward { "out" } else { "in" }
}

// The zone of a move, by what was drawn.
fn zone_word(zone: u64) -> &'static str
    ensures { result.now ≡ zone_word (if zone == 0 then Normal else Movable) }
{
    if zone == 0 { "normal" } else { "movable" }
}
