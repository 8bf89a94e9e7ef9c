//! Where a question stands, as it is when it is asked.
ghost use Rattle.std.specs.Prelude.{◌≡◌, IfOk};
ghost use Rattle.scons_host.specs.SoFar.{so_far};
ghost use Rattle.scons_host.specs.Told as spec;

use crate::state::State;
use py_heap::HostId;
use py_host::Place;
use scons_base::{Memory, PathText};
use scons_calls::Thing;

/// The line of a question and its script, and what is called there, for what is told of its refusal.
#[derive(Drop)]
pub struct Site {
    pub script: PathText,
    pub line: u32,
    pub called: Option<Thing>,
}

/// The site of a question, which may be the call of an object.
pub fn site_of(state: &State, place: Place, called: Option<HostId>) -> Result<Site, Memory>
    ensures { IfOk result (λ site. site ≡ spec.site_at (so_far state.now) place called) }
{
    Ok(Site {
        script: state.script_at(place.script)?,
        line: place.line,
        called: thing_of(state, called)?,
    })
}

/// What an object stands for that is called.
fn thing_of(state: &State, called: Option<HostId>) -> Result<Option<Thing>, Memory>
    ensures { IfOk result (λ thing. thing ≡ spec.called_thing (so_far state.now).objects called) }
{
    let Some(object) = called else {
        return Ok(None);
    };
    match state.objects.thing(object) {
        Some(thing) => Ok(Some(copy_of(thing)?)),
        None => Ok(None),
    }
}

fn copy_of(thing: &Thing) -> Result<Thing, Memory>
    ensures { IfOk result (λ copy. copy ≡ thing.now) }
{
    Ok(match thing {
        Thing::Name(name) => Thing::Name(*name),
        Thing::Env(env) => Thing::Env(*env),
        Thing::Method(env, name) => Thing::Method(*env, *name),
        Thing::OwnMethod(env, own) => Thing::OwnMethod(*env, own.copy()?),
        Thing::Builders(env) => Thing::Builders(*env),
        Thing::Builder(number) => Thing::Builder(*number),
        Thing::File(path) => Thing::File(path.copy()?),
        Thing::Dir(path) => Thing::Dir(path.copy()?),
        Thing::Alias(name) => Thing::Alias(name.copy()?),
    })
}
