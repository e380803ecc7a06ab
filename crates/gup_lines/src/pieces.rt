//! The pieces of lines.
ghost use Rattle.std.specs.Prelude.{◌≡◌, ◌++◌, decimal, OnOk, OnErr};

use gup_base::NoMemory;
use itoa::Buffer;

/// Appends the piece. Where memory is wanted the text is as it was.
#[inline(always)]
pub fn push_text(text: &mut Vec<u8>, piece: &str) -> Result<(), NoMemory>
    ensures ok { OnOk result (text.new.items ≡ text.old.items ++ piece.now) }
    ensures err { OnErr result (text.new.items ≡ text.old.items) }
{
    text.extend_from_slice(piece.as_bytes())?;
    Ok(())
}

/// Appends the number, in decimal. Where memory is wanted the text is as it was.
#[inline(never)]
pub fn push_number(text: &mut Vec<u8>, n: u64) -> Result<(), NoMemory>
    ensures ok { OnOk result (text.new.items ≡ text.old.items ++ decimal n) }
    ensures err { OnErr result (text.new.items ≡ text.old.items) }
{
    write_number(text, n)
}

/// The same, without a call: where a line has one number at least, and where words follow one another.
#[inline(always)]
pub fn write_number(text: &mut Vec<u8>, n: u64) -> Result<(), NoMemory>
    ensures ok { OnOk result (text.new.items ≡ text.old.items ++ decimal n) }
    ensures err { OnErr result (text.new.items ≡ text.old.items) }
{
    let mut buffer = Buffer::new();
    push_text(text, buffer.format(n))
}
