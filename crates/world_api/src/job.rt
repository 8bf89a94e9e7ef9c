//! Actions, and how they end.
ghost use Rattle.std.specs.Prelude.{◌≡◌, List, IfOk};

use scons_base::{Listing, Memory, Paths, Text, Texts};
use std::alloc::Global;

/// What an action is: a command for the shell, a copy of its first dependency, or its one signed text written out, or
/// its first dependencies joined, with keys replaced by values, as its signed texts say.
#[derive(Clone, Copy, Debug, PartialEq, Eq)]
pub enum Work {
    Shell,
    Copy,
    Write,
}

/// A line for the shell. A quiet one isn't printed; the status of one to ignore doesn't end the action.
#[derive(Debug, Drop)]
pub struct Line {
    pub text: Text,
    pub quiet: bool,
    pub ignore: bool,
}

impl Line {
    pub fn copy(&self) -> Result<Line, Memory>
        ensures { IfOk result (λ line. line ≡ self.now) }
    {
        Ok(Line {
            text: self.text.copy()?,
            quiet: self.quiet,
            ignore: self.ignore,
        })
    }
}

/// An action as the world is handed it. `signed` are the texts that stand for it in records, `deps` what it reads.
#[derive(Debug, Drop)]
pub struct Job {
    pub id: u32,
    pub work: Work,
    pub targets: Paths,
    pub lines: Listing<Line>,
    pub signed: Texts,
    pub deps: Paths,
}

impl Job {
    pub fn copy(&self, alloc: Global) -> Result<Job, Memory>
        ensures { IfOk result (λ job. job ≡ self.now) }
    {
        Ok(Job {
            id: self.id,
            work: self.work,
            targets: self.targets.copy()?,
            lines: copy_lines(alloc, &self.lines)?,
            signed: self.signed.copy()?,
            deps: self.deps.copy()?,
        })
    }
}

/// The same lines once more.
pub fn copy_lines(alloc: Global, lines: &Listing<Line>) -> Result<Listing<Line>, Memory>
    ensures { IfOk result (λ copied. copied ≡ lines.now) }
{
    let mut copied = Listing::empty(alloc);
    for line in lines.as_slice() {
        copied.push(line.copy()?)?;
    }
    Ok(copied)
}

/// How a job ended: well; by a status other than 0; without having run whole; or for want of memory.
#[derive(Clone, Copy, Debug, PartialEq, Eq)]
pub enum Outcome {
    Done,
    Failed(i32),
    Broken,
    NoMemory,
}

#[derive(Clone, Copy, Debug, PartialEq, Eq)]
pub struct Ended {
    pub id: u32,
    pub outcome: Outcome,
}
