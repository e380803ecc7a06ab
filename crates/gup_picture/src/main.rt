//! `gup_picture`: a picture of a trace, as text or as SVG.
#![tactic(auto)]

ghost use Rattle.std.specs.Prelude.{◌≡◌};
ghost use Rattle.std.specs.Process.{exit_status};

mod command;
mod top;

use gup_io::{FromStd, ToStd};
use std::env::Env;
use std::process::ExitCode;
use std::{env, io};
use top::{Report, picture};

/// The words after the program's name. Where one of them isn't UTF-8 they are no command.
fn words(rt: &(impl Env + AllocGlobal)) -> io::Result<Vec<String>> {
    let mut words = Vec::new(rt.alloc());
    match env::args(rt) {
        Ok(args) => {
            for word in args.skip(1) {
                words.push(word)?;
            }
        }
        Err(error) if matches!(error.kind(), io::ErrorKind::InvalidData) => {
            words.push(String::new(rt.alloc()))?;
        }
        Err(error) => return Err(error),
    }
    Ok(words)
}

/// What the process leaves with: the report's status.
fn exit_code(report: &Report) -> ExitCode
    ensures { exit_status result ≡ report.now.status }
{
    ExitCode::from(report.status)
}

fn main(rt: HostRuntime) -> ExitCode {
    let Ok(words) = words(&rt) else {
        return ExitCode::from(7);
    };
    let mut source = FromStd::new(rt.stdin());
    let mut sink = ToStd::new(rt.stdout());
    let report = picture(rt.alloc(), words.as_slice(), &mut source, &mut sink);
    exit_code(&report)
}
