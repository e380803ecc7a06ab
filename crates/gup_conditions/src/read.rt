//! The conditions that stand in a script's comments.
ghost use Rattle.std.specs.Prelude.{◌≡◌, ℕ, ◌<◌, length, ◌++◌, codes, List, Some, IfOk, IfErr, OnOk, MatchOption, map};
ghost use Rattle.std.specs.Bool.{Decides};
ghost use Rattle.std.specs.Option.{option_to_list};
ghost use Rattle.gup_script.specs.declared.op.Op.{Op as OpValue};
ghost use Rattle.gup_script.specs.Script.{actor_at};
ghost use Rattle.gup_lines.specs.Text.{name_in};
ghost use Rattle.gup_spec_grammar.specs.Grammar.{Accepts};
ghost use Rattle.gup_spec_grammar.specs.Spelling.{parts, Lacks, IsPrintable};
ghost use Rattle.gup_conditions.specs.Answers.{can_answer};
ghost use Rattle.gup_conditions.specs.Reading.{HasOperation, Means, IsPassed, AreConditions, IsSplit, IsPieceFault, IsPiece, IsRefused, refusal_at, IsReadAs, IsFaultOf, ArePieces, IsFirstWrong, IsNowhere, IsFound};

use crate::answers::can_answer;
use crate::condition::{Condition, Often};
use crate::line::Line;
use gup_base::{ActorNo, NoMemory};
use gup_read_words::{cut_words, line_text, number};
use gup_script::{Op, Script};
use std::alloc::{AllocFailed, Global};

/// What is wrong with a line of a condition.
#[derive(Clone, Copy, Debug, PartialEq, Eq)]
pub enum ConditionReason {
    /// A piece isn't a space, a name, a number and an answer, with one space between two.
    Shape,
    /// No actor of this name has an operation with this number.
    Name,
    /// The operation can't answer so.
    Answer,
}

/// The first line with a fault, by its number, from 1, and the reason.
#[derive(Clone, Copy, Debug, PartialEq, Eq)]
pub struct ConditionFault {
    pub line: u32,
    pub reason: ConditionReason,
}

/// Why there are no conditions.
#[derive(Clone, Copy, Debug, PartialEq, Eq)]
pub enum ConditionRefusal {
    Fault(ConditionFault),
    NoMemory,
}

impl<T: Drop> From<AllocFailed<T>> for ConditionRefusal {
    ghost use Rattle.gup_conditions.specs.declared.read.ConditionRefusal.TheVariants.{NoMemory};

    ghost from_gives = { λ _ refusal. refusal ≡ NoMemory };

    fn from(_error: AllocFailed<T>) -> ConditionRefusal {
        ConditionRefusal::NoMemory
    }
}

impl From<NoMemory> for ConditionRefusal {
    ghost use Rattle.gup_conditions.specs.declared.read.ConditionRefusal.TheVariants.{NoMemory};

    ghost from_gives = { λ _ refusal. refusal ≡ NoMemory };

    fn from(_error: NoMemory) -> ConditionRefusal {
        ConditionRefusal::NoMemory
    }
}

// Why a line is no condition.
#[derive(Clone, Copy, Debug)]
enum Trouble {
    Reason(ConditionReason),
    NoMemory,
}

impl Trouble {
    // The refusal for it in the line with this number.
    fn at(self, line: u32) -> ConditionRefusal
        ensures { result ≡ refusal_at line self }
    {
        match self {
            Trouble::Reason(reason) => ConditionRefusal::Fault(ConditionFault { line, reason }),
            Trouble::NoMemory => ConditionRefusal::NoMemory,
        }
    }
}

impl From<NoMemory> for Trouble {
    ghost use Rattle.gup_conditions.specs.declared.read.Trouble.TheVariants.{NoMemory};

    ghost from_gives = { λ _ trouble. trouble ≡ NoMemory };

    fn from(_error: NoMemory) -> Trouble {
        Trouble::NoMemory
    }
}

impl<T: Drop> From<AllocFailed<T>> for Trouble {
    ghost use Rattle.gup_conditions.specs.declared.read.Trouble.TheVariants.{NoMemory};

    ghost from_gives = { λ _ trouble. trouble ≡ NoMemory };

    fn from(_error: AllocFailed<T>) -> Trouble {
        Trouble::NoMemory
    }
}

/// The conditions that stand in the comments of a script's text, in order: the comments that begin with `# never:`, `# sometimes:` or
/// `# always:`. Behind the colon stand the lines that are wanted, each as `gup run` prints it, behind a space, with a semicolon between
/// two. Refused is the first line that begins so and is no condition, for the first of its pieces that is wrong. The rule is this
/// project's own.
pub fn read_conditions(
    alloc: Global,
    script: &Script,
    text: &[u8],
) -> Result<Vec<Condition>, ConditionRefusal>
    requires { Accepts text.now script.now }
    ensures conditions { IfOk result (λ conditions. AreConditions script.now (parts 10 text.now) conditions.items) }
    ensures refused { IfErr result (IsRefused script.now (parts 10 text.now)) }
{
    let mut conditions = Vec::new(alloc);
    let mut number = 1;
    for line in &lines_of(alloc, text)? {
        match read_line(alloc, script, line) {
            Ok(read) => push_read(&mut conditions, read)?,
            Err(trouble) => return Err(trouble.at(number)),
        }
        number += 1;
    }
    Ok(conditions)
}

// The condition, where there is one, behind those so far.
fn push_read(conditions: &mut Vec<Condition>, read: Option<Condition>) -> Result<(), NoMemory>
    ensures { OnOk result (conditions.new.items ≡ conditions.old.items ++ option_to_list read) }
{
    if let Some(condition) = read {
        conditions.push(condition)?;
    }
    Ok(())
}

// The parts of a text between its line feeds.
fn lines_of(alloc: Global, text: &[u8]) -> Result<Vec<&[u8]>, NoMemory>
    ensures { IfOk result (λ lines. map (λ line. line.now) lines.items ≡ parts 10 text.now) }
{
    Ok(text.split(|byte| *byte == b'\n').collect(alloc)?)
}

// The condition that the line is, if it is meant as one.
fn read_line(alloc: Global, script: &Script, line: &[u8]) -> Result<Option<Condition>, Trouble>
    requires { IsPrintable line.now }
    ensures read { IfOk result (λ read. IsReadAs script.now line.now read) }
    ensures refused { IfErr result (IsFaultOf script.now line.now) }
{
    let Some(line) = line_text(line) else {
        // Each line of a script has a text.
        unreachable!()
    };
    let Some((often, wanted)) = often_of(line) else {
        return Ok(None);
    };
    let lines = read_lines(alloc, script, wanted)?;
    Ok(Some(Condition::new(often, lines)))
}

// How often the lines behind the colon are wanted, and these, where the line is meant as a condition.
fn often_of(line: &str) -> Option<(Often, &str)>
    ensures { MatchOption result (IsPassed line.now) (λ meant. Means line.now meant.0 meant.1.now) }
{
    let (front, wanted) = line.split_once(':')?;
    let often = match front {
        "# never" => Often::Never,
        "# sometimes" => Often::Sometimes,
        "# always" => Often::Always,
        _ => return None,
    };
    Some((often, wanted))
}

// The lines that are wanted.
fn read_lines(alloc: Global, script: &Script, wanted: &str) -> Result<Vec<Line>, Trouble>
    ensures read { IfOk result (λ lines. ArePieces script.now (parts 59 wanted.now) lines.items) }
    ensures refused { IfErr result (IsFirstWrong script.now (parts 59 wanted.now)) }
{
    let mut lines = Vec::new(alloc);
    for piece in &pieces_of(alloc, wanted)? {
        lines.push(read_piece(alloc, script, piece)?)?;
    }
    Ok(lines)
}

// The parts of a text between its semicolons.
fn pieces_of(alloc: Global, wanted: &str) -> Result<Vec<&str>, NoMemory>
    ensures { IfOk result (λ pieces. map (λ piece. piece.now) pieces.items ≡ parts 59 wanted.now) }
{
    Ok(wanted.split(';').collect(alloc)?)
}

// The line that a piece is.
fn read_piece(alloc: Global, script: &Script, piece: &str) -> Result<Line, Trouble>
    ensures read { IfOk result (IsPiece script.now piece.now) }
    ensures refused { IfErr result (IsPieceFault script.now piece.now) }
{
    let Some((name, number, text)) = split_piece(piece) else {
        return Err(Trouble::Reason(ConditionReason::Shape));
    };
    let Some(found) = operation(script, name, number) else {
        return Err(Trouble::Reason(ConditionReason::Name));
    };
    if !answers(alloc, found.op, text)? {
        return Err(Trouble::Reason(ConditionReason::Answer));
    }
    let line = Line::new(alloc, found.actor, found.number, text)?;
    Ok(line)
}

// The name, the number and the text of a piece.
fn split_piece(piece: &str) -> Option<(&str, &str, &str)>
    ensures { MatchOption result ((name number text : List ℕ) → IsSplit piece.now name number text → ⊥)
        (λ split. IsSplit piece.now split.0.now split.1.now split.2.now) }
{
    let (name, behind) = cut(piece.strip_prefix(' ')?)?;
    let (number, text) = cut(behind)?;
    Some((name, number, text))
}

// What stands before the first space and behind it.
fn cut(text: &str) -> Option<(&str, &str)>
    ensures { MatchOption result (Lacks 32 text.now)
        (λ cut. (text.now ≡ cut.0.now ++ (codes " " ++ cut.1.now)) × Lacks 32 cut.0.now) }
{
    text.split_once(' ')
}

// An operation of the script: its actor, its number, and what it is.
#[derive(Drop)]
struct Found<'a> {
    actor: ActorNo,
    number: u32,
    op: &'a Op,
}

// The operation with this number of an actor with this name.
fn operation<'a>(script: &'a Script, name: &str, number_word: &str) -> Option<Found<'a>>
    ensures { MatchOption result (IsNowhere script.now name.now number_word.now)
        (λ found. IsFound script.now name.now number_word.now found.actor found.number found.op.now) }
{
    let k = number(number_word)?;
    for a in 0..script.actors() {
        let actor = ActorNo::new(u64::from(a)).unwrap();
        if is_named(script, actor, name) {
            if let Some(op) = operation_of(script, actor, k) {
                return Some(Found {
                    actor,
                    number: k as u32,
                    op,
                });
            }
        }
    }
    None
}

// Whether this is the actor's name.
fn is_named(script: &Script, actor: ActorNo, name: &str) -> bool
    requires { actor < length script.now.actors }
    ensures { Decides result (name_in (actor_at script.now actor) ≡ name.now) }
{
    script.name_of(actor) == name
}

// The actor's operation with this number, from 1.
fn operation_of(script: &Script, actor: ActorNo, k: u64) -> Option<&Op>
    requires { actor < length script.now.actors }
    ensures { MatchOption result ((op : OpValue) → HasOperation script.now actor k op → ⊥) (λ op. HasOperation script.now actor k op.now) }
{
    let ops = script.ops(actor);
    if k < 1 || k > ops.len() as u64 {
        return None;
    }
    ops.get(k as usize - 1)
}

// Whether the operation can answer with this text.
fn answers(alloc: Global, op: &Op, text: &str) -> Result<bool, NoMemory>
    ensures { IfOk result (λ can. can ≡ can_answer op.now (parts 32 text.now)) }
{
    let mut words = Vec::new(alloc);
    cut_words(text, &mut words)?;
    Ok(can_answer(op, words.as_slice()))
}
