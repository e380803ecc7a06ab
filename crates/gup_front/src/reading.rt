//! Scripts that are read from sources.
ghost use Rattle.std.specs.Prelude.{◌≡◌, Err, IfErr, IfOk, IfSome, OnOk};
ghost use Rattle.gup_io.specs.Transfers.{Loses};
ghost use Rattle.gup_spec_grammar.specs.Grammar.{Accepts};
ghost use Rattle.gup_front.specs.Reading.{IsScriptOf, IsUnreadFor, IsReadThrough, IfFault};

use gup_io::{ReadToEnd, Source, read_up_to};
use gup_read::read_script;
use gup_script::Script;
use gup_spec_grammar::{ReadRefusal, ScriptFault};
use std::alloc::Global;

/// The most bytes of a script, and one more: a longer text is refused without reading on.
const READ_AT_MOST: usize = 1_048_577;

/// A script, and the text that it was read from.
#[derive(Debug, Drop)]
pub struct ReadScript {
    pub script: Script,
    pub text: Vec<u8>,
}

/// Why no script was read.
#[derive(Clone, Copy, Debug, PartialEq, Eq)]
pub enum Unread {
    /// A read failed.
    Failed,
    /// The bytes are no script.
    Fault(ScriptFault),
    /// The program's own memory ran out.
    NoMemory,
}

/// Reads the source to its end, or past the length of a script, and the script that its bytes are. The text is all that it was read
/// from: where the source tells its bytes, these.
pub fn read<S: Source>(alloc: Global, source: &mut S) -> Result<ReadScript, Unread>
    ensures accepted { IfOk result (λ read. Accepts read.text.items read.script) }
    ensures text { IfOk result (λ read. IfSome (S.remaining source.old) (λ bytes. read.text.items ≡ bytes)) }
    ensures script { IfOk result (λ read. IsScriptOf (S.remaining source.old) read.script) }
    ensures unread { IfErr result
        (λ why. IsUnreadFor (S.remaining source.old) (S.faults source.old) (S.faults source.new) (S.faulted source.new) why) }
    ensures reading { Loses 0 1048577 (S.remaining source.old) (S.remaining source.new) }
    ensures ended { OnOk result (IsReadThrough (S.remaining source.old) (S.remaining source.new)) }
    ensures refused { IfErr result
        (λ why. IfFault why (IsReadThrough (S.remaining source.old) (S.remaining source.new))) }
    ensures uncounted { (result ≡ Err Unread.Failed → ⊥) → S.faults source.new ≡ S.faults source.old }
{
    let text = match read_up_to(alloc, source, READ_AT_MOST) {
        Ok(text) => text,
        Err(ReadToEnd::Failed) => return Err(Unread::Failed),
        Err(ReadToEnd::NoMemory) => return Err(Unread::NoMemory),
    };
    match read_script(alloc, text.as_slice()) {
        Ok(script) => Ok(ReadScript { script, text }),
        Err(ReadRefusal::Fault(fault)) => Err(Unread::Fault(fault)),
        Err(ReadRefusal::NoMemory) => Err(Unread::NoMemory),
    }
}
