//! The program `scons`: the command over the real files, the shell and the two standard streams.
#![tactic(auto)]

mod streams;

use real_world::{LockWish, RealSink, RealWorld, Shell};
use scons_base::Text;
use scons_top::{Report, Top, scons};
use scons_words::read_words;
use std::alloc::Global;
use std::env::Env;
use std::io::ErrorKind;
use std::process::ExitCode;
use std::{env, io};

/// The status of a faulty command line, and of any run with faults.
const FAULTS: u8 = 2;

/// The status of want of memory.
const NO_MEMORY: u8 = 3;

/// The words of the command line behind the program's own name.
fn words(alloc: Global, rt: &(impl Env + AllocGlobal)) -> io::Result<Vec<Text>> {
    let mut words = Vec::new(alloc);
    for word in env::args(rt)?.skip(1) {
        words.push(Text::new(word))?;
    }
    Ok(words)
}

fn main(rt: HostRuntime) -> ExitCode {
    streams::open_closed(&rt);
    let alloc = rt.alloc();
    let words = match words(alloc, &rt) {
        Ok(words) => words,
        Err(error) if error.kind() == ErrorKind::OutOfMemory => return no_memory(&rt),
        Err(_) => {
            let _ = eprintln!(rt; "scons: *** A word of the command line is not UTF-8.");
            return ExitCode::from(FAULTS);
        }
    };
    let mut out = RealSink::new(rt, rt.stdout());
    let mut err = RealSink::new(rt, rt.stderr());
    let wish = wish_of(alloc, &words);
    let Ok(mut world) = RealWorld::new(rt, Shell::new(rt), wish) else {
        return no_memory(&rt);
    };
    let report = scons(alloc, &words, &mut world, &mut out, &mut err);
    world.unlock();
    if report.status == NO_MEMORY {
        return no_memory(&rt);
    }
    if has_unprinted(&report) {
        let _ = eprintln!(rt; "scons: *** A text could not be printed.");
    }
    ExitCode::from(report.status)
}

/// Which lock a run with these words wants. What is wrong with them is told by the run itself.
fn wish_of(alloc: Global, words: &[Text]) -> LockWish {
    match read_words(alloc, words) {
        Ok(words) if words.help || words.load.is_some() => LockWish::Never,
        Ok(words) if words.dry => LockWish::IfThere,
        Ok(_) => LockWish::Always,
        Err(_) => LockWish::Never,
    }
}

/// Whether a stream refused a text: such a fault has none in the report.
fn has_unprinted(report: &Report) -> bool {
    report
        .faults
        .as_slice()
        .iter()
        .any(|fault| matches!(fault, Top::OutFault))
}

/// Says that memory is short: the report of such a run has no text.
fn no_memory(rt: &impl Eprint) -> ExitCode {
    let _ = eprintln!(rt; "scons: *** No memory is left.");
    ExitCode::from(NO_MEMORY)
}
