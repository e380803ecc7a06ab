use super::*;
use gup_base::ActorNo;
use std::io;
use std::test::Fail;

// What the next read gives, into a buffer of four bytes.
fn next_four<S: Source>(source: &mut S) -> Result<([u8; 4], usize), Failed> {
    let mut buf = [0; 4];
    let n = source.read(&mut buf)?;
    Ok((buf, n))
}

fn call_before<P: Pace>(pace: &P, actor: ActorNo) {
    pace.before(actor, 1);
}

// Gives "hello" at its first read, fails at its second, and then is at its end.
#[derive(Drop)]
struct FailsSecond {
    reads: u8,
}

impl io::Read for FailsSecond {
    fn read(&mut self, buf: &mut [u8]) -> io::Result<usize> {
        self.reads = self.reads.saturating_add(1);
        if self.reads == 2 {
            return Err(io::ErrorKind::Other.into());
        }
        if self.reads > 2 || buf.len() < 5 {
            return Ok(0);
        }
        buf[..5].copy_from_slice(b"hello");
        Ok(5)
    }
}

// Takes one byte at each write, and fails at its write with this number.
#[derive(Drop)]
struct TakesOne {
    writes: u8,
    fails: u8,
}

impl io::Write for TakesOne {
    fn write(&mut self, buf: &[u8]) -> io::Result<usize> {
        self.writes = self.writes.saturating_add(1);
        if self.writes == self.fails {
            return Err(io::ErrorKind::Other.into());
        }
        Ok(buf.len().min(1))
    }

    fn flush(&mut self) -> io::Result<()> {
        Ok(())
    }
}

#[test]
fn memory_source_fails_at_its_calls(rt: HostRuntime) -> Result<(), Fail> {
    let bytes = b"abcdef".to_vec(rt.alloc())?;
    let fails = [2].to_vec(rt.alloc())?;
    let mut source = MemSource::new(bytes, fails);
    assert_eq!(rt; next_four(&mut source), Ok((*b"abcd", 4)));
    assert_eq!(rt; next_four(&mut source), Err(Failed));
    assert_eq!(rt; next_four(&mut source), Ok((*b"ef\0\0", 2)));
    assert_eq!(rt; next_four(&mut source), Ok(([0; 4], 0)));
    Ok(())
}

#[test]
fn reads_up_to_a_limit(rt: HostRuntime) -> Result<(), Fail> {
    let text = b"hello";
    for (most, want) in [(0, 0), (3, 3), (5, 5), (9, 5)] {
        let mut source = SureSource::new(text.to_vec(rt.alloc())?);
        let got = read_up_to(rt.alloc(), &mut source, most)?;
        assert_eq!(rt; got.as_slice(), &text[..want], "up to {most}");
    }
    let long = vec![in rt.alloc(); 7u8; 10_000]?;
    let mut source = SureSource::new(long);
    let first = read_up_to(rt.alloc(), &mut source, 9_000)?;
    assert_eq!(rt; first.len(), 9_000);
    let rest = read_up_to(rt.alloc(), &mut source, 9_000)?;
    assert_eq!(rt; rest.len(), 1_000);
    Ok(())
}

#[test]
fn reading_breaks_off_at_a_fault(rt: HostRuntime) -> Result<(), Fail> {
    let fails = [1].to_vec(rt.alloc())?;
    let mut source = MemSource::new(b"hello".to_vec(rt.alloc())?, fails);
    let broken = read_up_to(rt.alloc(), &mut source, 9).err();
    assert_eq!(rt; broken, Some(ReadToEnd::Failed));
    let again = read_up_to(rt.alloc(), &mut source, 9)?;
    assert_eq!(rt; again.as_slice(), b"hello".as_slice());
    Ok(())
}

#[test]
fn memory_sink_has_room_for_seven(rt: HostRuntime) -> Result<(), Fail> {
    let fails = [1].to_vec(rt.alloc())?;
    let mut sink = MemSink::with_room(rt.alloc(), 7, fails)?;
    assert_eq!(rt; sink.write(b"abcde"), Err(Failed));
    assert_eq!(rt; sink.write(b"abcde"), Ok(5));
    assert_eq!(rt; sink.write(b"fgh"), Ok(2));
    assert_eq!(rt; sink.write(b"h"), Err(Failed));
    assert_eq!(rt; sink.bytes(), b"abcdefg".as_slice());
    Ok(())
}

#[test]
fn writes_a_whole_text_or_its_front(rt: HostRuntime) -> Result<(), Fail> {
    for (room, want, is_whole) in [(9, 8, true), (8, 8, true), (7, 7, false), (0, 0, false)] {
        let mut sink = MemSink::with_room(rt.alloc(), room, Vec::new(rt.alloc()))?;
        let text = b"t 1 ok 8";
        assert_eq!(rt; write_all(&mut sink, text).is_ok(), is_whole, "room {room}");
        assert_eq!(rt; sink.bytes(), &text[..want], "room {room}");
    }
    Ok(())
}

#[test]
fn std_reader_is_a_source(rt: HostRuntime) -> Result<(), Fail> {
    let mut source = FromStd::new(b"hello".as_slice());
    let got = read_up_to(rt.alloc(), &mut source, 9)?;
    assert_eq!(rt; got.as_slice(), b"hello".as_slice());

    let mut failing = FromStd::new(FailsSecond { reads: 0 });
    let broken = read_up_to(rt.alloc(), &mut failing, 9).err();
    assert_eq!(rt; broken, Some(ReadToEnd::Failed));
    let rest = read_up_to(rt.alloc(), &mut failing, 9)?;
    assert_eq!(rt; rest.len(), 0);
    Ok(())
}

#[test]
fn std_writer_is_a_sink(rt: HostRuntime) -> Result<(), Fail> {
    let mut taken = Vec::new(rt.alloc());
    write_all(&mut ToStd::new(&mut taken), b"hello")?;
    assert_eq!(rt; taken.as_slice(), b"hello".as_slice());

    let mut full = [0; 3];
    let refused = write_all(&mut ToStd::new(full.as_mut_slice()), b"hello");
    assert_eq!(rt; refused, Err(Failed));
    assert_eq!(rt; full, *b"hel");

    let mut failing = ToStd::new(TakesOne {
        writes: 0,
        fails: 1,
    });
    assert_eq!(rt; write_all(&mut failing, b"hello"), Err(Failed));
    assert_eq!(rt; write_all(&mut failing, b"hello"), Ok(()));
    Ok(())
}

#[test]
fn nothing_is_written_behind_a_fault(rt: HostRuntime) -> Result<(), Fail> {
    let mut writer = TakesOne {
        writes: 0,
        fails: 2,
    };
    let refused = write_all(&mut ToStd::new(&mut writer), b"hello");
    assert_eq!(rt; refused, Err(Failed));
    assert_eq!(rt; writer.writes, 2);
    Ok(())
}

#[test]
fn no_pace_holds_nobody_up(rt: HostRuntime) -> Result<(), Fail> {
    let actor = ActorNo::new(80).ok_or("80 is an actor")?;
    call_before(&NoPace, actor);
    assert_eq!(rt; actor.get(), 80);
    Ok(())
}
