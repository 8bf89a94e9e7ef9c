//! The end of a run: its last text and its report.
ghost use Rattle.std.specs.Prelude.{◌≡◌, ◌<◌, ◌≤◌, ◌∷◌, ◌++◌, [], vec_len, vec_capacity};
ghost use Rattle.one_rule.specs.Conclusion.{Closes, EndsOutput, Concludes, ErrorPrints, stop_status, stop_faults};
ghost use Rattle.one_rule.specs.Texts.{fault_text};

use crate::ending::Ending;
use crate::faults::Faults;
use crate::report::{Report, Top};
use crate::skipped::Skipped;
use crate::stops::PrintStop;
use crate::texts::{done_text, fault_text, terminated_text};
use std::alloc::Global;
use world_api::{Sink, print};

/// Prints the last text of a run, and reports it. `faults` is empty and has room for two.
pub fn conclude<O: Sink, E: Sink>(
    alloc: Global,
    ending: Ending,
    faults: Vec<Top>,
    out: &mut O,
    err: &mut E,
) -> Report
    requires empty { faults.items ≡ [] }
    requires room { 2 ≤ vec_capacity faults }
    ensures concludes { Concludes O.meaning E.meaning out.old out.new err.old err.new ending result.status result.faults }
    ensures skipped { result.skipped ≡ [] }
{
    match ending {
        Ending::Refused(fault) => close(alloc, faults, fault, "", out, err),
        Ending::Misread(fault) => close(alloc, faults, fault, "", out, err),
        Ending::Stopped(fault) => close(alloc, faults, fault, terminated_text(), out, err),
        Ending::Failed(fault) => close(alloc, faults, fault, terminated_text(), out, err),
        Ending::Built => end_output(alloc, 0, faults, done_text(), out),
        Ending::Unprinted => cut_off(alloc, faults, PrintStop::Unprinted),
        Ending::NoMemory => cut_off(alloc, faults, PrintStop::NoMemory),
    }
}

/// Reports a fault, and prints its text and the last line of output.
fn close<O: Sink, E: Sink>(
    alloc: Global,
    mut faults: Vec<Top>,
    fault: Top,
    last: &str,
    out: &mut O,
    err: &mut E,
) -> Report
    requires empty { faults.items ≡ [] }
    requires room { 2 ≤ vec_capacity faults }
    ensures closes { Closes O.meaning E.meaning out.old out.new err.old err.new (fault ∷ []) last.now (fault_text fault) result.status result.faults }
    ensures skipped { result.skipped ≡ [] }
{
    let printed = print_fault(alloc, err, &fault);
    faults.push_reserved(fault);
    match printed {
        Ok(()) => end_output(alloc, 2, faults, last, out),
        Err(stop) => cut_off(alloc, faults, stop),
    }
}

/// Prints the last line of output, and reports what was found.
fn end_output<O: Sink>(
    alloc: Global,
    status: u8,
    faults: Vec<Top>,
    last: &str,
    out: &mut O,
) -> Report
    requires { vec_len faults < vec_capacity faults }
    ensures ends { EndsOutput O.meaning out.old out.new status faults.items last.now result.status result.faults }
    ensures skipped { result.skipped ≡ [] }
{
    match print(out, last) {
        Ok(()) => report(alloc, status, faults),
        Err(_) => cut_off(alloc, faults, PrintStop::Unprinted),
    }
}

/// Reports what was found, and that a text wasn't printed whole.
fn cut_off(alloc: Global, mut faults: Vec<Top>, stop: PrintStop) -> Report
    requires { vec_len faults < vec_capacity faults }
    ensures status { result.status ≡ stop_status stop }
    ensures faults { result.faults ≡ faults.items ++ stop_faults stop }
    ensures skipped { result.skipped ≡ [] }
{
    match stop {
        PrintStop::Unprinted => {
            faults.push_reserved(Top::OutFault);
            report(alloc, 2, faults)
        }
        PrintStop::NoMemory => report(alloc, 3, faults),
    }
}

/// Reports a run that memory ran out for before it began.
pub fn out_of_memory(alloc: Global) -> Report
    ensures status { result.status ≡ 3 }
    ensures faults { result.faults ≡ [] }
    ensures skipped { result.skipped ≡ [] }
{
    report(alloc, 3, Vec::new(alloc))
}

fn print_fault<E: Sink>(alloc: Global, err: &mut E, fault: &Top) -> Result<(), PrintStop>
    ensures { ErrorPrints E.meaning (fault_text fault.now) err.old err.new result }
{
    let text = fault_text(alloc, fault)?;
    print(err, text.as_str())?;
    Ok(())
}

fn report(alloc: Global, status: u8, faults: Vec<Top>) -> Report
    ensures status { result.status ≡ status }
    ensures faults { result.faults ≡ faults.items }
    ensures skipped { result.skipped ≡ [] }
{
    Report {
        status,
        faults: Faults::new(faults),
        skipped: Skipped::new(Vec::new(alloc)),
    }
}
