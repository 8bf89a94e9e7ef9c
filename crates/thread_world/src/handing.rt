//! What passes between the world in memory and the pool: a job that starts, and what an ending made.
ghost use Rattle.std.specs.Prelude.{◌≡◌, ◌≢◌, ◌⊎◌, Some, Err, IfOk, OnOk, OnErr};
ghost use Rattle.job_runner.specs.Outs.{out_of};
ghost use Rattle.thread_world.specs.Handed.{IsHandedOn};
ghost use Rattle.thread_world.specs.Step.{listed};
ghost use Rattle.world_api.specs.Calls.{CanStart};
ghost use Rattle.world_api.specs.Causes.{StartFails};
ghost use Rattle.world_mem.specs.AsAround.{around_of};
ghost use Rattle.world_mem.specs.Blocked.{AreBlocked};
ghost use Rattle.world_mem.specs.CallCounts.{Fails, counted};
ghost use Rattle.world_mem.specs.EachCall.{Keeps};
ghost use Rattle.world_mem.specs.Kept.{counts_of, start_fault};
ghost use Rattle.world_mem.specs.Means.{machine_of};
ghost use Rattle.act_table.specs.Filled.{contents_of};
ghost use Rattle.world_mem.specs.declared.calls.Call.{Call};

use crate::runner::TableRunner;
use act_table::SharedTable;
use job_runner::{Ending, Gate, Pool, Slip};
use scons_base::{Listing, Memory};
use std::alloc::Global;
use std::sync::Wait;
use world_api::{AskRefusal, Content, Job};
use world_mem::{Entering, MemWorld};

/// Takes all that the start of a job needs, and hands the job to the pool, with what it is given and with the table.
pub fn hand_on<T: Wait, G: Gate>(
    world: &mut MemWorld,
    pool: &mut Pool<T, TableRunner, G>,
    table: &SharedTable,
    job: Job,
) -> Result<Entering, AskRefusal>
    requires { CanStart job (around_of world.old.state) }
    ensures handed { IfOk result (λ entering. IsHandedOn table.now job entering world.new (out_of pool.old.out) (out_of pool.new.out)) }
    ensures back { OnErr result (out_of pool.new.out ≡ out_of pool.old.out) }
    ensures machine { machine_of world.new ≡ machine_of world.old }
    ensures turns { world.new.turns.items ≡ world.old.turns.items }
    ensures horizon { world.new.horizon ≡ world.old.horizon }
    ensures kept { result ≢ Err AskRefusal.Fault → world.new.faults ≡ world.old.faults }
    ensures rose { result ≡ Err AskRefusal.Fault → StartFails (counts_of world.old.faults) (counts_of world.new.faults) }
    ensures once { result ≡ Err AskRefusal.Fault → counts_of world.new.faults ≡ start_fault (counts_of world.old.faults) }
    ensures only { result ≡ Err AskRefusal.Fault → Fails Call.Start world.old.calls ⊎ AreBlocked (around_of world.old.state) job.targets }
    ensures clear { OnOk result (AreBlocked (around_of world.old.state) job.targets → ⊥) }
    ensures counted { world.new.calls ≡ counted Call.Start world.old.calls }
    ensures stamp { world.new.state.stamp ≡ world.old.state.stamp }
    ensures keeps { Keeps world.old world.new }
{
    let entering = world.prepare(job)?;
    let slip = slip_for(&entering, table)?;
    pool.hand_in(slip)?;
    Ok(entering)
}

/// What is handed to a worker: a job that may start, with what it is given, and the table.
fn slip_for(entering: &Entering, table: &SharedTable) -> Result<Slip, Memory>
    ensures job { IfOk result (λ slip. slip.job ≡ entering.now.job) }
    ensures given { IfOk result (λ slip. slip.given ≡ Some (contents_of entering.now.run.given)) }
    ensures table { IfOk result (λ slip. slip.table ≡ Some table.now) }
{
    Ok(Slip {
        given: Some(entering.given()?),
        table: Some(table.share()?),
        job: entering.job()?,
    })
}

/// What an ending made.
pub fn made_of(alloc: Global, ending: Ending) -> Listing<Content>
    ensures { result ≡ listed ending.made }
{
    let Ending { made, .. } = ending;
    match made {
        Some(made) => made,
        None => Listing::empty(alloc),
    }
}
