//! What a worker makes of a slip.
ghost use Rattle.std.specs.Prelude.{◌≡◌, Some, true, IfOk};
ghost use Rattle.job_runner.specs.Answers.{Answer, IsAnswer};
ghost use Rattle.thread_world.specs.Comes.{answer_by, comes_to};

use act_table::{ActTable, Contents, paired};
use job_runner::{Ending, Runner, Slip};
use scons_base::{Listing, Memory};
use std::alloc::Global;
use std::sync::Arc;
use world_api::{Content, Job, Outcome};
use world_mem::ending_by;

/// Runs a job by the table of actions that its slip has, over what the slip says that the job is given.
#[derive(Drop)]
pub struct TableRunner {
    pub alloc: Global,
}

impl Runner for TableRunner {
    ghost answer = { comes_to };

    ghost gave = { λ ending. true };

    fn run(&self, slip: Arc<Slip, Global>) -> Ending {
        match come(self.alloc, &slip) {
            Ok((outcome, made)) => Ending {
                slip,
                outcome,
                made,
            },
            Err(_) => Ending {
                slip,
                outcome: Outcome::NoMemory,
                made: None,
            },
        }
    }
}

/// How the job of a slip ends, and what it makes.
fn come(alloc: Global, slip: &Slip) -> Result<(Outcome, Option<Listing<Content>>), Memory>
    ensures { IfOk result (λ end. (answer : Answer) → comes_to slip.now ≡ Some answer → record { outcome = end.0; made = end.1 } ≡ answer) }
{
    match &slip.table {
        Some(table) => come_by(alloc, table.table(), slip),
        None => Ok((Outcome::Broken, None)),
    }
}

fn come_by(
    alloc: Global,
    table: &ActTable,
    slip: &Slip,
) -> Result<(Outcome, Option<Listing<Content>>), Memory>
    requires { slip.now.table ≡ Some table.now }
    ensures { IfOk result (λ end. (answer : Answer) → comes_to slip.now ≡ Some answer → record { outcome = end.0; made = end.1 } ≡ answer) }
{
    match &slip.given {
        Some(contents) => {
            let given = paired(alloc, &slip.job.deps, contents.as_slice())?;
            let (outcome, made) = answer_by(alloc, table, &slip.job, &given)?;
            Ok((outcome, Some(made)))
        }
        None => Ok((Outcome::Broken, None)),
    }
}

/// How a job ends by a table, and what it makes.
fn answer_by(
    alloc: Global,
    table: &ActTable,
    job: &Job,
    given: &Contents,
) -> Result<(Outcome, Listing<Content>), Memory>
    ensures { IfOk result (λ end. record { outcome = end.0; made = Some end.1 } ≡ answer_by table.now job.now given.now) }
{
    let (outcome, made) = ending_by(alloc, table, job, given)?;
    Ok((outcome, made.contents()?))
}
