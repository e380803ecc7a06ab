use gup_base::{ActorNo, HandleNo, MirrorNo, ProcNo};
use gup_read::read_script;
use gup_script::Script;
use gup_spec_grammar::{ReadRefusal, Reason, ScriptFault};
use std::alloc::Global;
use std::process::Abort;
use std::test::*;

/// Seven lines that declare one of each.
const DECLARED: &str =
    "gup 1\nframes 8 8 64\nprocess p\nchild c\nthread t p\ndevice d 64\nmover m\n";

/// What stands after the seven lines, and its first fault. Where a line has a second fault, the first goes before it.
const LINES: [(&str, u32, Reason); 189] = [
    ("process q\t\n", 8, Reason::Byte),
    ("# \u{e9}\n", 8, Reason::Byte),
    (" \u{7f}wrong\n", 8, Reason::Byte),
    (" process q\n", 8, Reason::Space),
    ("process q \n", 8, Reason::Space),
    ("process  q\n", 8, Reason::Space),
    (" \n", 8, Reason::Space),
    ("  wrong\n", 8, Reason::Space),
    ("wrong\n", 8, Reason::Word),
    ("map 0 1 rw\n", 8, Reason::Word),
    ("frames 8 8 64\n", 8, Reason::Word),
    ("gup 1\n", 8, Reason::Word),
    ("on t out h 0 0 1\n", 8, Reason::Word),
    ("on t move p 0\n", 8, Reason::Word),
    ("on d map 0 1 rw\n", 8, Reason::Word),
    ("on d fork c\n", 8, Reason::Word),
    ("on d exit 1\n", 8, Reason::Word),
    ("on m load 0.0\n", 8, Reason::Word),
    ("process\n", 8, Reason::Shape),
    ("process q r\n", 8, Reason::Shape),
    ("child\n", 8, Reason::Shape),
    ("thread u\n", 8, Reason::Shape),
    ("device e\n", 8, Reason::Shape),
    ("mover\n", 8, Reason::Shape),
    ("seed\n", 8, Reason::Shape),
    ("seed 01 1\n", 8, Reason::Shape),
    ("turns\n", 8, Reason::Shape),
    ("random 01\n", 8, Reason::Shape),
    ("on\n", 8, Reason::Shape),
    ("on q\n", 8, Reason::Shape),
    ("on t map 01 0\n", 8, Reason::Shape),
    ("on t map 01 0 w\n", 8, Reason::Shape),
    ("on t protect 0 1 write\n", 8, Reason::Shape),
    ("on t unmap 0\n", 8, Reason::Shape),
    ("on t discard 0 1 rw\n", 8, Reason::Shape),
    ("on t store 0.0\n", 8, Reason::Shape),
    ("on t exit now\n", 8, Reason::Shape),
    ("on t fork\n", 8, Reason::Shape),
    ("on t fork c p\n", 8, Reason::Shape),
    ("on t pin 9 01 17 rw\n", 8, Reason::Shape),
    ("on t pin h 0 1 read lang\n", 8, Reason::Shape),
    ("on t pinfast h 0 1\n", 8, Reason::Shape),
    ("on d outv h 01\n", 8, Reason::Shape),
    (
        "on d inv h 0 1:1 1:1 1:1 1:1 1:1 1:1 1:1 1:1 x\n",
        8,
        Reason::Shape,
    ),
    ("on m move q 01 high\n", 8, Reason::Shape),
    ("on q fly\n", 8, Reason::Name),
    ("on p exit\n", 8, Reason::Name),
    ("on t map 0 0 rw\n", 8, Reason::Number),
    ("on t map 0 1025 rw\n", 8, Reason::Number),
    ("on t map 34359738367 2 rw\n", 8, Reason::Number),
    ("on t unmap 00 1\n", 8, Reason::Number),
    ("on t load 5\n", 8, Reason::Number),
    ("on t load 5.512\n", 8, Reason::Number),
    ("on t load 34359738368.0\n", 8, Reason::Number),
    ("on t store 5.0 18446744073709551616\n", 8, Reason::Number),
    ("on t store 5.0 +7\n", 8, Reason::Number),
    ("on t pin 9 0 17 read\n", 8, Reason::Number),
    ("on t get 9 34359738368\n", 8, Reason::Number),
    ("on d out h 4294967296 0 1\n", 8, Reason::Number),
    ("on d in h 0 0 65\n", 8, Reason::Number),
    ("on d outv h 0 0:33 0:32\n", 8, Reason::Number),
    ("on d inv h 0 0:0\n", 8, Reason::Number),
    ("on d mirror 9 q 00\n", 8, Reason::Number),
    ("on d look s 512\n", 8, Reason::Number),
    ("on m move q x normal\n", 8, Reason::Number),
    ("device 9 0\n", 8, Reason::Number),
    ("device e 4097\n", 8, Reason::Number),
    ("seed 1\nseed 01\n", 9, Reason::Number),
    ("turns q*0\n", 8, Reason::Number),
    ("turns t*1000001\n", 8, Reason::Number),
    ("turns q t*\n", 8, Reason::Number),
    ("random 1 -1\n", 8, Reason::Number),
    ("process P\n", 8, Reason::Name),
    ("process 9\n", 8, Reason::Name),
    ("child a2345678901234567\n", 8, Reason::Name),
    ("thread t q\n", 8, Reason::Name),
    ("thread u t\n", 8, Reason::Name),
    ("mover M\n", 8, Reason::Name),
    ("on t pin H 0 1 read\n", 8, Reason::Name),
    ("on t put t\n", 8, Reason::Name),
    ("on t fork p\n", 8, Reason::Name),
    ("on t fork t\n", 8, Reason::Name),
    ("on t fork e\nchild e\n", 8, Reason::Name),
    ("on t fork c\non t fork p\n", 9, Reason::Name),
    ("on t unpin h\n", 8, Reason::Name),
    ("on d take p\n", 8, Reason::Name),
    ("on t give h d\n", 8, Reason::Name),
    ("on d out h 0 0 64\n", 8, Reason::Name),
    ("on d in t 0 0 1\n", 8, Reason::Name),
    ("on d outv h 0 0:32 0:32\n", 8, Reason::Name),
    ("on d mirror t p 0\n", 8, Reason::Name),
    ("on d mirror s t 0\n", 8, Reason::Name),
    ("on d look s 511\n", 8, Reason::Name),
    ("on m move t 0 normal\n", 8, Reason::Name),
    ("turns p\n", 8, Reason::Name),
    ("turns t*1000000 t q\n", 8, Reason::Name),
    ("process t\n", 8, Reason::Twice),
    ("child p\n", 8, Reason::Twice),
    ("thread d p\n", 8, Reason::Twice),
    ("device m 1\n", 8, Reason::Twice),
    ("mover p\n", 8, Reason::Twice),
    ("mover n\n", 8, Reason::Twice),
    ("seed 1\nseed 1\n", 9, Reason::Twice),
    ("on t pinfast t 0 1 write long\n", 8, Reason::Twice),
    ("on t get p 0\n", 8, Reason::Twice),
    ("on t fork c\non t fork c\n", 9, Reason::Twice),
    (
        "thread u c\non t exit\non t fork c\non u fork c\n",
        11,
        Reason::Twice,
    ),
    (
        "child e\non t fork e\non t fork c\non t fork e\n",
        11,
        Reason::Twice,
    ),
    ("turns t*1000000\nturns d\n", 9, Reason::Limit),
    ("turns t*500000 d*500000 m\n", 8, Reason::Limit),
    ("random 1 1000001\n", 8, Reason::Limit),
    ("turns t\nrandom 1 1000000\n", 9, Reason::Limit),
    ("random 1 18446744073709551615\n", 8, Reason::Limit),
    (
        "on t pin h 0 1 read\non d outv h 0 0:1\nwrong\n",
        10,
        Reason::Word,
    ),
    (
        "on t pin h 0 1 read\non d inv h 0 0:1 1:63\nwrong\n",
        10,
        Reason::Word,
    ),
    (
        "on t pin h 0 1 read\non t fork c\nwrong\n",
        10,
        Reason::Word,
    ),
    (
        "on t fork c\non t pin h 0 1 read\nwrong\n",
        10,
        Reason::Word,
    ),
    ("on t fork c\non t pin t 0 1 read\n", 9, Reason::Twice),
    ("on t pin h 0 1 read\non t fork p\n", 9, Reason::Name),
    (
        "on t pin h 0 1 read\non t pin h 1 1 write\n",
        9,
        Reason::Twice,
    ),
    ("on t pin h 0 1 read\nprocess h\n", 9, Reason::Twice),
    ("on t pin h 0 1 read\non d take g\n", 9, Reason::Name),
    ("on t pin h 0 1 read\non t give h m\n", 9, Reason::Name),
    ("on t pin h 0 1 read\non d give h p\n", 9, Reason::Name),
    ("on t pin h 0 1 read\non t put h\n", 9, Reason::Name),
    ("on t get\n", 8, Reason::Shape),
    ("on t get g\n", 8, Reason::Shape),
    ("on t get g 0 1\n", 8, Reason::Shape),
    ("on t get g 0\non t put\n", 9, Reason::Shape),
    ("on d get g 0\n", 8, Reason::Word),
    ("on t get g 0\non d put g\n", 9, Reason::Word),
    ("on t get g 0\non t put h\n", 9, Reason::Name),
    ("on t get g 0\non t unpin g\n", 9, Reason::Name),
    ("on t get g 0\non t give g d\n", 9, Reason::Name),
    ("on t get g 0\non t get g 1\n", 9, Reason::Twice),
    ("on t get g 0\non t pin g 1 1 read\n", 9, Reason::Twice),
    ("on t pin h 0 1 read\non d out h 0 0 0\n", 9, Reason::Number),
    ("on t pin h 0 1 read\non t in h 0 0 1\n", 9, Reason::Word),
    ("on t pin h 0 1 read\non m take h\n", 9, Reason::Word),
    ("on m move p 0\n", 8, Reason::Shape),
    ("on m move p 0 high\n", 8, Reason::Shape),
    ("on m move p 34359738368 normal\n", 8, Reason::Number),
    ("on m move t 0 normal\n", 8, Reason::Name),
    ("on t move p 0 normal\n", 8, Reason::Word),
    ("on d move p 0 movable\n", 8, Reason::Word),
    ("on m get g 0\n", 8, Reason::Word),
    (
        "# x\n\n#\non t pin h 0 1 read\non d inv h 0 0:64\nwrong\n",
        13,
        Reason::Word,
    ),
    ("on t mirror s p 0\n", 8, Reason::Word),
    ("on t look s\n", 8, Reason::Word),
    ("on m mirror s p 0\n", 8, Reason::Word),
    ("on d mirror s p 0\non t look s 0\n", 9, Reason::Word),
    ("on d mirror 9 q\n", 8, Reason::Shape),
    ("on d mirror 9 q 00 1\n", 8, Reason::Shape),
    ("on d look 9\n", 8, Reason::Shape),
    ("on d mirror s p 0\non d look s 512 1\n", 9, Reason::Shape),
    ("on d mirror t q 34359738368\n", 8, Reason::Number),
    (
        "on d mirror s p 0\non d mirror s p 34359738368\n",
        9,
        Reason::Number,
    ),
    ("on d mirror s p 0\non d look s 512\n", 9, Reason::Number),
    ("on d look s 0\non d mirror s p 0\n", 8, Reason::Name),
    ("on d mirror S p 0\n", 8, Reason::Name),
    ("on d mirror a2345678901234567 p 0\n", 8, Reason::Name),
    ("on d mirror p p 0\n", 8, Reason::Name),
    ("on d mirror d p 0\n", 8, Reason::Name),
    ("on d mirror s q 0\n", 8, Reason::Name),
    ("on d mirror s p 0\non d mirror s q 0\n", 9, Reason::Name),
    ("on d mirror s p 0\non d mirror r s 0\n", 9, Reason::Name),
    ("on t pin h 0 1 read\non d mirror h p 0\n", 9, Reason::Name),
    ("on t pin h 0 1 read\non d look h 0\n", 9, Reason::Name),
    ("on t get g 0\non d mirror g p 0\n", 9, Reason::Name),
    ("on d look c 0\n", 8, Reason::Name),
    (
        "device e 1\non d mirror s p 0\non e mirror s p 0\n",
        10,
        Reason::Name,
    ),
    (
        "device e 1\non d mirror s p 0\non e look s 0\n",
        10,
        Reason::Name,
    ),
    ("on d mirror s p 0\non t unpin s\n", 9, Reason::Name),
    ("on d mirror s p 0\non t put s\n", 9, Reason::Name),
    ("on d mirror s p 0\non s look s 0\n", 9, Reason::Name),
    ("on d mirror s p 0\nthread u s\n", 9, Reason::Name),
    ("on d mirror s p 0\nchild s\n", 9, Reason::Twice),
    ("on d mirror s p 0\non t pin s 0 1 read\n", 9, Reason::Twice),
    ("on d mirror s p 0\non t get s 0\n", 9, Reason::Twice),
    (
        "on d mirror s p 0\non d mirror s c 34359738367\non d look s 511\nwrong\n",
        11,
        Reason::Word,
    ),
    ("process q\n\nwrong\nwrong  too\n", 10, Reason::Word),
    ("process q\nprocess q\nprocess q\n", 9, Reason::Twice),
    ("on u exit\nthread u p\n", 8, Reason::Name),
    ("thread u q\nprocess q\n", 8, Reason::Name),
    ("on t exit\non t exi\n", 9, Reason::Word),
    ("on t load 0.0\non t load 0.0x\n", 9, Reason::Number),
    ("on t fork c\nthread u c\nwrong\n", 10, Reason::Word),
    ("turns t d*2 m*\n", 8, Reason::Number),
    ("random 1 1\nrandom 1\n", 9, Reason::Shape),
];

/// Whole texts, and the first fault of each.
const TEXTS: [(&str, u32, Reason); 24] = [
    ("", 1, Reason::Short),
    ("\n", 2, Reason::Short),
    ("gup 1\n", 2, Reason::Short),
    ("# x\ngup 1\n\n#\n", 5, Reason::Short),
    ("gup 1", 1, Reason::End),
    ("gup 2 ", 1, Reason::End),
    ("gup 1\r", 1, Reason::Byte),
    ("gup 1\nframes 8 8 64\n#", 3, Reason::End),
    ("gup 1\nframes 8 8 64\nprocess p", 3, Reason::End),
    ("gup 1\nframes 8 8 64\nprocess \u{e9}", 3, Reason::Byte),
    ("gup 1\r\nframes 8 8 64\n", 1, Reason::Byte),
    ("gup  2\n", 1, Reason::Space),
    ("gup 2\nframes 8 8 64\n", 1, Reason::Head),
    ("\n#\nframes 8 8 64\n", 3, Reason::Head),
    ("gup 1 1\n", 1, Reason::Head),
    ("gup 1\ngup 1\n", 2, Reason::Frames),
    ("gup 1\n\nframes 8 8\n", 3, Reason::Frames),
    ("gup 1\nframes 8 8 64 1\n", 2, Reason::Frames),
    ("gup 1\nframes 08 8 64\n", 2, Reason::Frames),
    ("gup 1\nframes 1024 1 64\n", 2, Reason::Frames),
    (
        "gup 1\nframes 1 18446744073709551615 64\n",
        2,
        Reason::Frames,
    ),
    ("gup 1\nframes 8 8 8193\n", 2, Reason::Frames),
    ("gup 1\nframes 8 8 64\nrandom 1 1\n", 3, Reason::Name),
    ("gup 1\nframes 8 8 64\nturns t\n", 3, Reason::Name),
];

/// Two processes, four actors, six operations, a fork among them, written and drawn turns, and a seed.
const WHOLE: &str =
    "# all\ngup 1\n\nframes 512 512 8192\nrandom 3 0\nprocess p\nchild c\nthread t p\ndevice d 4096\nthread u c\nmover m\nseed 18446744073709551615\non t map 5 1024 r\non u discard 0 3\non t protect 34359738367 1 rw\non t fork c\non t store 5.511 7\non t exit\nturns t u*3 d m*2\nrandom 7 6\nturns d\n";

/// A thread and a device that pin, give, take and unpin handles, and move words of one, also in several parts; a pin for long, a reference that is got
/// and put back, and a move.
const HELD: &str =
    "gup 1\nframes 8 8 64\nprocess p\nthread t p\ndevice d 64\nmover m\non t pin h 5 16 write\non t pin g 34359738367 1 read\non t give h d\non d take h\non d out h 4294967295 0 64\non d in g 0 4294967295 1\non d outv h 9 4294967295:2 0:61 512:1\non d inv g 4294967295 0:1 0:1 0:1 0:1 0:1 0:1 0:1 7:57\non d give g t\non t take g\non t unpin h\non d unpin g\non t pin k 7 2 read long\non t get f 9\non t put f\non m move p 34359738367 movable\n";

/// Two devices that mirror pages of both processes, one through two slots, and fill a slot again with another page, and look
/// through the slots.
const MIRRORED: &str =
    "gup 1\nframes 8 8 64\nprocess p\nchild c\nthread t p\ndevice d 1\ndevice e 1\non d mirror s p 5\non e mirror a2345678r p 34359738367\non d look s 511\non d mirror b p 0\non d mirror s c 7\non t pin h 5 1 read\non e look a2345678r 0\non d look b 1\n";

/// The fault for which the text is refused.
fn fault(alloc: Global, text: &[u8]) -> Result<ScriptFault, Fail> {
    match read_script(alloc, text) {
        Ok(_) => Err("a script")?,
        Err(ReadRefusal::NoMemory) => Err("no memory")?,
        Err(ReadRefusal::Fault(fault)) => Ok(fault),
    }
}

/// Each text is this head and the first part of a row, and has the fault of that row.
fn expect_faults(
    rt: &impl Abort,
    alloc: Global,
    head: &str,
    rows: &[(&str, u32, Reason)],
) -> Result<(), Fail> {
    for (lines, line, reason) in rows {
        let text = format!(in alloc; "{head}{lines}")?;
        let expected = ScriptFault {
            line: *line,
            reason: *reason,
        };
        assert_eq!(rt; fault(alloc, text.as_bytes())?, expected, "{lines}");
    }
    Ok(())
}

#[test]
fn faults_of_lines(rt: HostRuntime) -> Result<(), Fail> {
    expect_faults(&rt, rt.alloc(), DECLARED, &LINES)
}

#[test]
fn faults_of_texts(rt: HostRuntime) -> Result<(), Fail> {
    expect_faults(&rt, rt.alloc(), "", &TEXTS)
}

/// A script that is as long as a limit allows has so many lines after the seven, each of this prefix, a number and
/// this suffix; with one line more it has this fault in that line.
const LIMITS: [(u32, &str, &str, &str, Reason); 18] = [
    (14, "process q", "", "child r\n", Reason::Limit),
    (14, "child q", "", "process p\n", Reason::Twice),
    (63, "thread u", " p", "thread v c\n", Reason::Limit),
    (63, "thread u", " p", "thread t c\n", Reason::Twice),
    (15, "device e", " 1", "device f 4096\n", Reason::Limit),
    (16_384, "on t load ", ".0", "on t exit\n", Reason::Limit),
    (16_384, "on t load ", ".0", "on t get g 0\n", Reason::Limit),
    (16_384, "on t load ", ".0", "on t get t 0\n", Reason::Twice),
    (
        1_024,
        "on t pin h",
        " 0 1 read",
        "on t pin g 0 1 read\n",
        Reason::Limit,
    ),
    (
        1_024,
        "on t pin h",
        " 0 1 read",
        "on t get g 0\n",
        Reason::Limit,
    ),
    (
        1_024,
        "on t pin h",
        " 0 1 read",
        "on t get h7 0\n",
        Reason::Twice,
    ),
    (
        1_024,
        "on t pin h",
        " 0 1 read",
        "on t pinfast g 0 1 write long\n",
        Reason::Limit,
    ),
    (
        64,
        "on d mirror s",
        " p 0",
        "on d mirror r p 0\n",
        Reason::Limit,
    ),
    (
        64,
        "on d mirror s",
        " p 0",
        "on d mirror r q 0\n",
        Reason::Name,
    ),
    (64, "on d mirror s", " p 0", "on d look r 0\n", Reason::Name),
    (
        64,
        "on d mirror s",
        " p 0",
        "on d mirror s63 p 00\n",
        Reason::Number,
    ),
    (
        16_384,
        "on t load ",
        ".0",
        "on d mirror s p 0\n",
        Reason::Limit,
    ),
    (
        16_384,
        "on t load ",
        ".0",
        "on d mirror t p 0\n",
        Reason::Name,
    ),
];

/// The text with so many more lines `PREFIX`, number and `SUFFIX`.
fn with_lines(text: &mut String, count: u32, prefix: &str, suffix: &str) -> Result<(), Fail> {
    let alloc = *text.allocator();
    for k in 0..count {
        let line = format!(in alloc; "{prefix}{k}{suffix}\n")?;
        text.push_str(line.as_str())?;
    }
    Ok(())
}

fn expect_limit(
    rt: &impl Abort,
    alloc: Global,
    row: &(u32, &str, &str, &str, Reason),
) -> Result<(), Fail> {
    let (most, prefix, suffix, beyond, reason) = row;
    let mut text = String::from_str(alloc, DECLARED)?;
    with_lines(&mut text, *most, prefix, suffix)?;
    assert!(rt; read_script(alloc, text.as_bytes()).is_ok(), "{prefix}");
    text.push_str(beyond)?;
    let expected = ScriptFault {
        line: most.checked_add(8).ok_or("a line")?,
        reason: *reason,
    };
    assert_eq!(rt; fault(alloc, text.as_bytes())?, expected, "{beyond}");
    Ok(())
}

#[test]
fn limits(rt: HostRuntime) -> Result<(), Fail> {
    for row in &LIMITS {
        expect_limit(&rt, rt.alloc(), row)?;
    }
    Ok(())
}

#[test]
fn long_texts(rt: HostRuntime) -> Result<(), Fail> {
    let mut text = Vec::new(rt.alloc());
    for _ in 0..1_048_576 {
        text.push(b'\n')?;
    }
    let short = ScriptFault {
        line: 1_048_577,
        reason: Reason::Short,
    };
    assert_eq!(rt; fault(rt.alloc(), text.as_slice())?, short);
    text.push(255)?;
    let long = ScriptFault {
        line: 0,
        reason: Reason::Long,
    };
    assert_eq!(rt; fault(rt.alloc(), text.as_slice())?, long);
    Ok(())
}

/// All that the readers say of the script, a line for each thing that it declares.
fn told(alloc: Global, script: &Script) -> Result<String, Fail> {
    let mut text = format!(in alloc; "{:?} {}\n", script.frames(), script.seed())?;
    for p in 0..script.processes() {
        let process = ProcNo::new(u64::from(p)).ok_or("a process")?;
        let name = script.process_name(process);
        write!(text, "{name} {}\n", script.starts_born(process))?;
    }
    for a in 0..script.actors() {
        let actor = ActorNo::new(u64::from(a)).ok_or("an actor")?;
        let name = script.name_of(actor);
        write!(text, "{name} {:?}\n", script.kind(actor))?;
        for op in script.ops(actor) {
            write!(text, "{op:?}\n")?;
        }
    }
    for h in 0..script.handles() {
        let handle = HandleNo::new(u64::from(h)).ok_or("a handle")?;
        write!(text, "{}\n", script.handle_name(handle))?;
    }
    for m in 0..script.mirrors() {
        let slot = MirrorNo::new(u64::from(m)).ok_or("a mirror slot")?;
        write!(text, "slot {}\n", script.mirror_name(slot))?;
    }
    for turn in script.turns() {
        write!(text, "{} ", turn.get())?;
    }
    Ok(text)
}

/// The text is a script of which the readers say this, and so is its copy.
fn expect_script(rt: &impl Abort, alloc: Global, text: &str, expected: &str) -> Result<(), Fail> {
    let script = read_script(alloc, text.as_bytes())
        .ok()
        .ok_or("the text is a script")?;
    let copy = script.copy()?;
    for script in [&script, &copy] {
        assert_eq!(rt; told(alloc, script)?.as_str(), expected);
    }
    Ok(())
}

const WHOLE_TOLD: &str =
    "(512, 512, 8192) 18446744073709551615\np true\nc false\nt Thread(ProcNo { number: 0 })\nMap { page: PageNo { number: 5 }, n: 1024, rights: R }\nProtect { page: PageNo { number: 34359738367 }, n: 1, rights: RW }\nFork { child: ProcNo { number: 1 } }\nStore { page: PageNo { number: 5 }, word: WordNo { number: 511 }, value: 7 }\nExit\nd Device(4096)\nu Thread(ProcNo { number: 1 })\nDiscard { page: PageNo { number: 0 }, n: 3 }\nm Mover\n0 2 2 2 1 3 3 2 3 1 1 1 3 1 ";

#[test]
fn whole_script(rt: HostRuntime) -> Result<(), Fail> {
    expect_script(&rt, rt.alloc(), WHOLE, WHOLE_TOLD)
}

const HELD_TOLD: &str =
    "(8, 8, 64) 0\np true\nt Thread(ProcNo { number: 0 })\nPin { handle: HandleNo { number: 0 }, page: PageNo { number: 5 }, n: 16, want: Want { write: true, long: false }, fast: false }\nPin { handle: HandleNo { number: 1 }, page: PageNo { number: 34359738367 }, n: 1, want: Want { write: false, long: false }, fast: false }\nGive { handle: HandleNo { number: 0 }, to: ActorNo { number: 1 } }\nTake { handle: HandleNo { number: 1 } }\nUnpin { handle: HandleNo { number: 0 } }\nPin { handle: HandleNo { number: 2 }, page: PageNo { number: 7 }, n: 2, want: Want { write: false, long: true }, fast: false }\nGet { handle: HandleNo { number: 3 }, page: PageNo { number: 9 } }\nPut { handle: HandleNo { number: 3 } }\nd Device(64)\nTake { handle: HandleNo { number: 0 } }\nTransfer { handle: HandleNo { number: 0 }, outward: true, slot: 0, parts: Parts { parts: [(4294967295, 64)] } }\nTransfer { handle: HandleNo { number: 1 }, outward: false, slot: 4294967295, parts: Parts { parts: [(0, 1)] } }\nTransfer { handle: HandleNo { number: 0 }, outward: true, slot: 9, parts: Parts { parts: [(4294967295, 2), (0, 61), (512, 1)] } }\nTransfer { handle: HandleNo { number: 1 }, outward: false, slot: 4294967295, parts: Parts { parts: [(0, 1), (0, 1), (0, 1), (0, 1), (0, 1), (0, 1), (0, 1), (7, 57)] } }\nGive { handle: HandleNo { number: 1 }, to: ActorNo { number: 0 } }\nUnpin { handle: HandleNo { number: 1 } }\nm Mover\nMove { proc: ProcNo { number: 0 }, page: PageNo { number: 34359738367 }, zone: Movable }\nh\ng\nk\nf\n";

#[test]
fn script_with_handles(rt: HostRuntime) -> Result<(), Fail> {
    expect_script(&rt, rt.alloc(), HELD, HELD_TOLD)
}

const MIRRORED_TOLD: &str =
    "(8, 8, 64) 0\np true\nc false\nt Thread(ProcNo { number: 0 })\nPin { handle: HandleNo { number: 0 }, page: PageNo { number: 5 }, n: 1, want: Want { write: false, long: false }, fast: false }\nd Device(1)\nMirror { mirror: MirrorNo { number: 0 }, proc: ProcNo { number: 0 }, page: PageNo { number: 5 } }\nLook { mirror: MirrorNo { number: 0 }, word: WordNo { number: 511 } }\nMirror { mirror: MirrorNo { number: 2 }, proc: ProcNo { number: 0 }, page: PageNo { number: 0 } }\nMirror { mirror: MirrorNo { number: 0 }, proc: ProcNo { number: 1 }, page: PageNo { number: 7 } }\nLook { mirror: MirrorNo { number: 2 }, word: WordNo { number: 1 } }\ne Device(1)\nMirror { mirror: MirrorNo { number: 1 }, proc: ProcNo { number: 0 }, page: PageNo { number: 34359738367 } }\nLook { mirror: MirrorNo { number: 1 }, word: WordNo { number: 0 } }\nh\nslot s\nslot a2345678r\nslot b\n";

#[test]
fn script_with_mirrors(rt: HostRuntime) -> Result<(), Fail> {
    expect_script(&rt, rt.alloc(), MIRRORED, MIRRORED_TOLD)
}

/// With 64 slots declared, each is used again as before, and one more is too many.
#[test]
fn last_slots(rt: HostRuntime) -> Result<(), Fail> {
    let mut text = String::from_str(rt.alloc(), DECLARED)?;
    with_lines(&mut text, 64, "on d mirror s", " p 0")?;
    with_lines(&mut text, 64, "on d mirror s", " c 1")?;
    text.push_str("on d look s0 0\non d look s63 511\n")?;
    let script = read_script(rt.alloc(), text.as_bytes())
        .ok()
        .ok_or("the text is a script")?;
    assert_eq!(rt; script.mirrors(), 64);
    let last = MirrorNo::new(63).ok_or("a mirror slot")?;
    assert_eq!(rt; script.mirror_name(last), "s63");
    text.push_str("on d mirror r p 0\n")?;
    let expected = ScriptFault {
        line: 138,
        reason: Reason::Limit,
    };
    assert_eq!(rt; fault(rt.alloc(), text.as_bytes())?, expected);
    Ok(())
}
