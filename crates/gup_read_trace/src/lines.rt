//! The lines of a text, and the line `journal` among them.
ghost use Rattle.std.specs.Prelude.{◌≡◌, ◌↔◌, ◌≤◌, ◌==◌, codes, count_by, length, IsTrue, MatchOption};
ghost use Rattle.gup_spec_trace.specs.Trace.{most_bytes, HasNoJournal};
ghost use Rattle.gup_read_trace.specs.Lines.{IsCut};
ghost use Rattle.gup_read_trace.specs.Parts.{IsPartedAt};

/// A text before and behind its first line `journal`, and how many lines stand before it.
#[derive(Clone, Copy)]
pub(crate) struct Parted<'a> {
    pub front: &'a [u8],
    pub behind: &'a [u8],
    pub lines: u32,
}

/// The line that the bytes begin with, and what stands after its line feed; `None` where there is no line feed.
pub(crate) fn cut_line(text: &[u8]) -> Option<(&[u8], &[u8])>
    ensures { IsCut text.now result }
{
    let end = text.iter().position(|&b| b == b'\n')?;
    Some((&text[..end], &text[end + 1..]))
}

fn is_journal(line: &[u8]) -> bool
    ensures { IsTrue result ↔ line.now ≡ codes "journal" }
{
    line == b"journal".as_slice()
}

/// The text in its parts, if it has a line `journal`.
pub(crate) fn part(text: &[u8]) -> Option<Parted<'_>>
    requires { length text.now ≤ most_bytes }
    ensures { MatchOption result (HasNoJournal text.now) (λ parted. IsPartedAt text.now parted) }
{
    let mut front = 0;
    let mut lines = 0;
    let mut rest = text;
    while let Some((line, behind)) = cut_line(rest) {
        if is_journal(line) {
            return Some(Parted {
                front: &text[..front],
                behind,
                lines,
            });
        }
        front += line.len() + 1;
        lines += 1;
        rest = behind;
    }
    None
}

/// How many line feeds the text has.
pub(crate) fn count_feeds(text: &[u8]) -> usize
    ensures { result ≡ count_by (λ b. b == 10) text.now }
{
    text.iter().filter(|b| **b == b'\n').count()
}
