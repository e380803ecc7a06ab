//! Operations in words, as scripts have them.
use gup_base::{ActorNo, HandleNo, NoMemory, PageNo, ProcNo, Rights, Want, WordNo, Zone};
use gup_lines::{handle_name, name_of, process_name, push_number, push_text, slot_name};
use gup_script::{Op, Script};

/// Appends the actor's operation with this number, from 1; nothing where there is none.
pub(crate) fn push_operation(
    script: &Script,
    actor: ActorNo,
    number: u32,
    text: &mut Vec<u8>,
) -> Result<(), NoMemory> {
    if actor.get() >= u64::from(script.actors()) {
        return Ok(());
    }
    match script.ops(actor).get(number.saturating_sub(1) as usize) {
        Some(op) if number > 0 => push_op(script, op, text),
        _ => Ok(()),
    }
}

fn push_op(script: &Script, op: &Op, text: &mut Vec<u8>) -> Result<(), NoMemory> {
    match op {
        Op::Map { page, n, rights } => push_rights("map ", *page, *n, *rights, text),
        Op::Unmap { page, n } => push_pages("unmap ", *page, *n, text),
        Op::Protect { page, n, rights } => push_rights("protect ", *page, *n, *rights, text),
        Op::Discard { page, n } => push_pages("discard ", *page, *n, text),
        Op::Load { page, word } => push_address("load ", *page, *word, text),
        Op::Store { page, word, value } => {
            push_address("store ", *page, *word, text)?;
            push_text(text, " ")?;
            push_number(text, *value)
        }
        Op::Pin {
            handle,
            page,
            n,
            want,
            fast,
        } => {
            push_handle(
                script,
                if *fast { "pinfast " } else { "pin " },
                *handle,
                text,
            )?;
            push_pages(" ", *page, u16::from(*n), text)?;
            push_want(*want, text)
        }
        Op::Unpin { handle } => push_handle(script, "unpin ", *handle, text),
        Op::Give { handle, to } => {
            push_handle(script, "give ", *handle, text)?;
            push_text(text, " ")?;
            push_text(text, name_of(script, *to))
        }
        Op::Take { handle } => push_handle(script, "take ", *handle, text),
        Op::Get { handle, page } => {
            push_handle(script, "get ", *handle, text)?;
            push_page(" ", *page, text)
        }
        Op::Put { handle } => push_handle(script, "put ", *handle, text),
        Op::Transfer {
            handle,
            outward,
            slot,
            parts,
        } => push_transfer(script, *handle, *outward, *slot, parts.as_slice(), text),
        Op::Mirror { mirror, proc, page } => {
            push_text(text, "mirror ")?;
            push_text(text, slot_name(script, *mirror))?;
            push_process(script, *proc, *page, text)
        }
        Op::Look { mirror, word } => {
            push_text(text, "look ")?;
            push_text(text, slot_name(script, *mirror))?;
            push_text(text, " ")?;
            push_number(text, word.get())
        }
        Op::Move { proc, page, zone } => {
            push_text(text, "move")?;
            push_process(script, *proc, *page, text)?;
            push_text(text, zone_word(*zone))
        }
        Op::Fork { child } => {
            push_text(text, "fork ")?;
            push_text(text, process_name(script, *child))
        }
        Op::Exit => push_text(text, "exit"),
    }
}

fn push_page(front: &str, page: PageNo, text: &mut Vec<u8>) -> Result<(), NoMemory> {
    push_text(text, front)?;
    push_number(text, page.get())
}

fn push_pages(front: &str, page: PageNo, n: u16, text: &mut Vec<u8>) -> Result<(), NoMemory> {
    push_page(front, page, text)?;
    push_text(text, " ")?;
    push_number(text, u64::from(n))
}

fn push_rights(
    front: &str,
    page: PageNo,
    n: u16,
    rights: Rights,
    text: &mut Vec<u8>,
) -> Result<(), NoMemory> {
    push_pages(front, page, n, text)?;
    push_text(
        text,
        match rights {
            Rights::R => " r",
            Rights::RW => " rw",
        },
    )
}

fn push_address(
    front: &str,
    page: PageNo,
    word: WordNo,
    text: &mut Vec<u8>,
) -> Result<(), NoMemory> {
    push_page(front, page, text)?;
    push_text(text, ".")?;
    push_number(text, word.get())
}

fn push_handle(
    script: &Script,
    front: &str,
    handle: HandleNo,
    text: &mut Vec<u8>,
) -> Result<(), NoMemory> {
    push_text(text, front)?;
    push_text(text, handle_name(script, handle))
}

fn push_want(want: Want, text: &mut Vec<u8>) -> Result<(), NoMemory> {
    push_text(text, if want.write { " write" } else { " read" })?;
    push_text(text, if want.long { " long" } else { "" })
}

fn push_process(
    script: &Script,
    proc: ProcNo,
    page: PageNo,
    text: &mut Vec<u8>,
) -> Result<(), NoMemory> {
    push_text(text, " ")?;
    push_text(text, process_name(script, proc))?;
    push_page(" ", page, text)
}

fn zone_word(zone: Zone) -> &'static str {
    match zone {
        Zone::Movable => " movable",
        Zone::Normal => " normal",
    }
}

// A transfer of one part, or of several.
fn push_transfer(
    script: &Script,
    handle: HandleNo,
    outward: bool,
    slot: u32,
    parts: &[(u32, u8)],
    text: &mut Vec<u8>,
) -> Result<(), NoMemory> {
    push_text(text, if outward { "out" } else { "in" })?;
    if let [(index, n)] = parts {
        push_handle(script, " ", handle, text)?;
        push_count(" ", u64::from(*index), text)?;
        push_count(" ", u64::from(slot), text)?;
        return push_count(" ", u64::from(*n), text);
    }
    push_handle(script, "v ", handle, text)?;
    push_count(" ", u64::from(slot), text)?;
    for (index, n) in parts {
        push_count(" ", u64::from(*index), text)?;
        push_count(":", u64::from(*n), text)?;
    }
    Ok(())
}

fn push_count(front: &str, n: u64, text: &mut Vec<u8>) -> Result<(), NoMemory> {
    push_text(text, front)?;
    push_number(text, n)
}
