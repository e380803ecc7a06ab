use gup_base::{ActorNo, HandleNo, MirrorNo, ProcNo};
use gup_read_names::Names;
use gup_spec_grammar::Named;
use std::alloc::{AllocError, Global};
use std::test::*;

/// Declares the name if it is unused, and answers whether it was.
fn declare_unused(names: &mut Names, name: &str, named: Named) -> Result<bool, AllocError> {
    if names.find(name).is_some() {
        return Ok(false);
    }
    names.declare(name, named)?;
    Ok(true)
}

/// What is found of each of these names.
fn found(alloc: Global, names: &Names, words: &[&str]) -> Result<String, AllocError> {
    let mut text = String::new(alloc);
    for word in words {
        write!(text, "{word}: {:?}\n", names.find(word))?;
    }
    Ok(text)
}

const FOUND: &str =
    "p: Some(Process(ProcNo { number: 1 }))\nt: Some(Actor(ActorNo { number: 2 }))\nh: Some(Pin(HandleNo { number: 3 }))\na234567890123456: Some(Mirror(MirrorNo { number: 4 }, ActorNo { number: 5 }))\npt: None\n: None\n";

#[test]
fn names_are_found_as_they_were_declared(rt: HostRuntime) -> Result<(), Fail> {
    let process = Named::Process(ProcNo::new(1).ok_or("a process")?);
    let actor = Named::Actor(ActorNo::new(2).ok_or("an actor")?);
    let pin = Named::Pin(HandleNo::new(3).ok_or("a handle")?);
    let slot = MirrorNo::new(4).ok_or("a mirror slot")?;
    let mirror = Named::Mirror(slot, ActorNo::new(5).ok_or("a device")?);
    let mut names = Names::new(rt.alloc());
    let declared = [
        names.find("p").is_none(),
        declare_unused(&mut names, "p", process)?,
        declare_unused(&mut names, "t", actor)?,
        declare_unused(&mut names, "h", pin)?,
        declare_unused(&mut names, "a234567890123456", mirror)?,
        declare_unused(&mut names, "p", actor)?,
    ];
    assert_eq!(rt; declared, [true, true, true, true, true, false]);
    let words = ["p", "t", "h", "a234567890123456", "pt", ""];
    assert_eq!(rt; found(rt.alloc(), &names, &words)?.as_str(), FOUND);
    Ok(())
}
