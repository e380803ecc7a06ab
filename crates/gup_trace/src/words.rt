//! The words of a line, each behind a space.
ghost use Rattle.std.specs.Prelude.{◌≡◌, ◌++◌, codes, decimal, OnOk, OnErr};
ghost use Rattle.gup_lines.specs.Text.{BeginsWith};
ghost use Rattle.gup_spec_grammar.specs.Spelling.{address};

use gup_base::{NoMemory, PageNo, WordNo};
use gup_lines::{push_number, push_text};

/// Appends a space and the word.
#[tactic(auto, using(crate::proofs::Fronts::fronts))]
pub(crate) fn push_word(text: &mut Vec<u8>, word: &str) -> Result<(), NoMemory>
    ensures ok { OnOk result (text.new.items ≡ text.old.items ++ (codes " " ++ word.now)) }
    ensures err { OnErr result (BeginsWith text.new.items text.old.items) }
{
    push_text(text, " ")?;
    push_text(text, word)
}

/// Appends a space and the number.
#[tactic(auto, using(crate::proofs::Fronts::fronts))]
pub(crate) fn push_count(text: &mut Vec<u8>, n: u64) -> Result<(), NoMemory>
    ensures ok { OnOk result (text.new.items ≡ text.old.items ++ (codes " " ++ decimal n)) }
    ensures err { OnErr result (BeginsWith text.new.items text.old.items) }
{
    push_text(text, " ")?;
    push_number(text, n)
}

/// Appends a space and the page with a word of it.
#[tactic(auto, using(crate::proofs::Fronts::fronts))]
pub(crate) fn push_address(text: &mut Vec<u8>, page: PageNo, word: WordNo) -> Result<(), NoMemory>
    ensures ok { OnOk result (text.new.items ≡ text.old.items ++ (codes " " ++ address page word)) }
    ensures err { OnErr result (BeginsWith text.new.items text.old.items) }
{
    push_count(text, page.get())?;
    push_text(text, ".")?;
    push_number(text, word.get())
}
