//! The lines after the `frames` line: each adds what it declares, an operation or turns to a `Reader`, or is refused
//! for the first fault that it has.
ghost use Rattle.std.specs.Prelude.{◌≡◌, map, OnOk};
ghost use Rattle.gup_read.specs.Steps.{Makes, MayHaveSlot, IsDeclarable};
ghost use Rattle.gup_spec_grammar.specs.Names.{find};
ghost use Rattle.gup_spec_grammar.specs.Outline.{with_slot};
ghost use Rattle.gup_read.specs.Reading.{with_made, on_in, process_in, thread_in, device_in, mover_in, seed_in, next_in};

use crate::operations::actor_op;
use crate::refusal::{Trouble, check};
use crate::turns::{random_line, turns_line};
use gup_base::ActorNo;
use gup_read_outline::Reader;
use gup_read_words::{count, is_name, number};
use gup_script::{Kind, Op};
use gup_spec_grammar::Reason;
use std::alloc::{AllocError, Global};

const MAX_PROCESSES: usize = 16;

const MAX_THREADS: usize = 64;

const MAX_DEVICES: usize = 16;

/// How many words the store of a device may have.
const MAX_SLOTS: u64 = 4_096;

/// Declares a mirror slot of this device, unless it is one already.
fn declare_slot(reader: &mut Reader, device: ActorNo, name: &str) -> Result<(), AllocError>
    requires { MayHaveSlot name.now reader.old }
    ensures { OnOk result (reader.new ≡ with_slot device name.now (find reader.old.names name.now) reader.old) }
{
    if reader.is_unused(name) {
        reader.add_mirror(device, name)
    } else {
        Ok(())
    }
}

/// Declares the handle of a pin or of a reference, or the slot of a mirror, which this actor's operation brings. Its name is the
/// first word after the operation's own.
fn declare_made(
    reader: &mut Reader,
    actor: ActorNo,
    op: &Op,
    fields: &[&str],
) -> Result<(), AllocError>
    requires { IsDeclarable op.now (map (λ word. word.now) fields.now) reader.old }
    ensures { OnOk result (reader.new ≡ with_made actor op.now (map (λ word. word.now) fields.now) reader.old) }
{
    match (op, fields) {
        (Op::Pin { .. }, [name, ..]) => reader.add_handle(name),
        (Op::Get { .. }, [name, ..]) => reader.add_reference(name),
        (Op::Mirror { .. }, [name, ..]) => declare_slot(reader, actor, name),
        _ => Ok(()),
    }
}

#[tactic(auto, unfolding(crate::specs::Reading::on_in))]
fn on_line(reader: &mut Reader, fields: &[&str]) -> Result<(), Trouble>
    ensures { Makes (on_in reader.old (map (λ word. word.now) fields.now)) reader.new result }
{
    let [name, word, fields @ ..] = fields else {
        return Err(Trouble::Fault(Reason::Shape));
    };
    let actor = reader.actor(name).ok_or(Reason::Name)?;
    let op = actor_op(reader, actor, word, fields)?;
    check(reader.has_room(), Reason::Limit)?;
    declare_made(reader, actor, &op, fields)?;
    reader.add_operation(actor, op)?;
    Ok(())
}

/// A `process` line, or a `child` line, whose process is not born at the start.
#[tactic(auto, unfolding(crate::specs::Reading::process_in))]
fn process_line(reader: &mut Reader, born: bool, fields: &[&str]) -> Result<(), Trouble>
    ensures { Makes (process_in born reader.old (map (λ word. word.now) fields.now)) reader.new result }
{
    let [name] = fields else {
        return Err(Trouble::Fault(Reason::Shape));
    };
    check(is_name(name), Reason::Name)?;
    check(reader.is_unused(name), Reason::Twice)?;
    check(reader.processes() < MAX_PROCESSES, Reason::Limit)?;
    reader.add_process(name, born)?;
    Ok(())
}

#[tactic(auto, unfolding(crate::specs::Reading::thread_in))]
fn thread_line(reader: &mut Reader, fields: &[&str]) -> Result<(), Trouble>
    ensures { Makes (thread_in reader.old (map (λ word. word.now) fields.now)) reader.new result }
{
    let [name, process] = fields else {
        return Err(Trouble::Fault(Reason::Shape));
    };
    check(is_name(name), Reason::Name)?;
    let process = reader.process(process).ok_or(Reason::Name)?;
    check(reader.is_unused(name), Reason::Twice)?;
    check(reader.threads() < MAX_THREADS, Reason::Limit)?;
    reader.add_actor(name, Kind::Thread(process))?;
    Ok(())
}

#[tactic(auto, unfolding(crate::specs::Reading::device_in))]
fn device_line(reader: &mut Reader, fields: &[&str]) -> Result<(), Trouble>
    ensures { Makes (device_in reader.old (map (λ word. word.now) fields.now)) reader.new result }
{
    let [name, slots] = fields else {
        return Err(Trouble::Fault(Reason::Shape));
    };
    let slots = count(1, MAX_SLOTS, slots).ok_or(Reason::Number)?;
    check(is_name(name), Reason::Name)?;
    check(reader.is_unused(name), Reason::Twice)?;
    check(reader.devices() < MAX_DEVICES, Reason::Limit)?;
    reader.add_actor(name, Kind::Device(slots as u16))?;
    Ok(())
}

#[tactic(auto, unfolding(crate::specs::Reading::mover_in))]
fn mover_line(reader: &mut Reader, fields: &[&str]) -> Result<(), Trouble>
    ensures { Makes (mover_in reader.old (map (λ word. word.now) fields.now)) reader.new result }
{
    let [name] = fields else {
        return Err(Trouble::Fault(Reason::Shape));
    };
    check(is_name(name), Reason::Name)?;
    check(reader.is_unused(name) && !reader.has_mover(), Reason::Twice)?;
    reader.add_actor(name, Kind::Mover)?;
    Ok(())
}

#[tactic(auto, unfolding(crate::specs::Reading::seed_in))]
fn seed_line(reader: &mut Reader, fields: &[&str]) -> Result<(), Trouble>
    ensures { Makes (seed_in reader.old (map (λ word. word.now) fields.now)) reader.new result }
{
    let [seed] = fields else {
        return Err(Trouble::Fault(Reason::Shape));
    };
    let seed = number(seed).ok_or(Reason::Number)?;
    check(!reader.is_seeded(), Reason::Twice)?;
    reader.set_seed(seed);
    Ok(())
}

/// A line after the `frames` line, by its words.
#[tactic(auto, unfolding(crate::specs::Reading::next_in))]
pub fn next_line(alloc: Global, reader: &mut Reader, words: &[&str]) -> Result<(), Trouble>
    ensures { Makes (next_in reader.old (map (λ word. word.now) words.now)) reader.new result }
{
    let [word, fields @ ..] = words else {
        return Err(Trouble::Fault(Reason::Word));
    };
    match *word {
        "on" => on_line(reader, fields),
        "process" => process_line(reader, true, fields),
        "child" => process_line(reader, false, fields),
        "thread" => thread_line(reader, fields),
        "device" => device_line(reader, fields),
        "mover" => mover_line(reader, fields),
        "seed" => seed_line(reader, fields),
        "turns" => turns_line(alloc, reader, fields),
        "random" => random_line(reader, fields),
        _ => Err(Trouble::Fault(Reason::Word)),
    }
}
