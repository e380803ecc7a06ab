//! The line of a verdict.
ghost use Rattle.std.specs.Prelude.{◌≡◌, ◌++◌, IfOk, OnOk};
ghost use Rattle.gup_spec_check.specs.Verdicts.{verdict_text};

use gup_base::NoMemory;
use gup_lines::{push_number, push_text};
use gup_spec_check::Verdict;
use std::alloc::Global;

/// The line of a verdict: `yes`, `open`, or `no` and the number of the first note that isn't accepted.
pub fn verdict_line(alloc: Global, verdict: Verdict) -> Result<Vec<u8>, NoMemory>
    ensures { IfOk result (λ text. text.items ≡ verdict_text verdict) }
{
    let mut text = Vec::new(alloc);
    push_verdict(&mut text, verdict)?;
    Ok(text)
}

fn push_verdict(text: &mut Vec<u8>, verdict: Verdict) -> Result<(), NoMemory>
    ensures { OnOk result (text.new.items ≡ text.old.items ++ verdict_text verdict) }
{
    match verdict {
        Verdict::Yes => push_text(text, "yes\n"),
        Verdict::Open => push_text(text, "open\n"),
        Verdict::No(number) => {
            push_text(text, "no ")?;
            push_number(text, number)?;
            push_text(text, "\n")
        }
    }
}
