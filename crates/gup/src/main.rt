//! `gup`: how Linux pins a program's memory, as a verified model that runs.
#![tactic(auto)]

ghost use Rattle.std.specs.Prelude.{◌≡◌};
ghost use Rattle.std.specs.Process.{exit_status};

use gup_io::{FromStd, NoPace, ToStd};
use gup_top::{Report, gup};
use std::env::Env;
use std::process::ExitCode;
use std::{env, io};

/// The words after the program's name. Where one of them isn't UTF-8 they are no command, as where there are none.
fn words(rt: &(impl Env + AllocGlobal)) -> io::Result<Vec<String>> {
    let mut words = Vec::new(rt.alloc());
    match env::args(rt) {
        Ok(args) => {
            for word in args.skip(1) {
                words.push(word)?;
            }
        }
        Err(error) if matches!(error.kind(), io::ErrorKind::InvalidData) => {}
        Err(error) => return Err(error),
    }
    Ok(words)
}

/// What the process leaves with: the report's status.
fn exit_code(report: &Report) -> ExitCode
    ensures { exit_status result ≡ report.now.status }
{
    ExitCode::from(report.status)
}

fn main(rt: HostRuntime) -> ExitCode {
    let Ok(words) = words(&rt) else {
        return ExitCode::from(7);
    };
    let mut source = FromStd::new(rt.stdin());
    let mut sink = ToStd::new(rt.stdout());
    let report = gup(
        &rt,
        rt.alloc(),
        words.as_slice(),
        &mut source,
        &mut sink,
        &NoPace,
    );
    exit_code(&report)
}
