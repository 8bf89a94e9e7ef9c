//! The host: each of its calls is a function on the state of the reading, and what it refuses is kept there.
ghost use Rattle.std.specs.Prelude.{◌≡◌};
ghost use Rattle.scons_host.specs.ReadingRules.{place_in};
ghost use Rattle.scons_host.specs.Sharing.{innermost};
ghost use Rattle.scons_host.specs.SoFar.{so_far};

use crate::asked::{attribute, item, set_item};
use crate::calls::{Caller, call};
use crate::kept::Kept;
use crate::printing::print;
use crate::scopes::innermost as innermost_call;
use crate::scripts::{next_first, script_done};
use crate::site::site_of;
use crate::state::State;
use crate::stop::Stop;
use py_heap::{Heap, HostId, Value};
use py_host::{Args, Host, HostRefusal, Place, Reply, Scope};
use py_tree::Script;
use world_api::{Sink, World};

/// What stands behind the names of scripts while they are read.
#[derive(Drop)]
pub struct ReadingHost<'w, 'o, 's, 'k, W: World, O: Sink> {
    pub world: &'w mut W,
    pub out: &'o mut O,
    pub state: &'s mut State,
    pub kept: &'k mut Kept,
}

/// The place of a fault that no call is at.
const NOWHERE: Place = Place { script: 0, line: 0 };

/// The place of the call that reads the script that runs.
fn place_of(state: &State) -> Place
    ensures { result ≡ place_in (innermost (so_far state.now)) }
{
    match innermost_call(state) {
        Some(call) => call.place,
        None => NOWHERE,
    }
}

impl<W: World, O: Sink> Host for ReadingHost<'_, '_, '_, '_, W, O> {
    ghost use Rattle.scons_host.specs.Seeing.{host_meaning, host_kept, host_determined};

    ghost meaning = { host_meaning W.meaning O.meaning };

    ghost kept = { host_kept W.meaning O.meaning };

    ghost determined = { host_determined W.meaning O.meaning };

    fn name(&mut self, name: &str) -> Option<Value> {
        self.state.name(name)
    }

    fn call(
        &mut self,
        heap: &mut Heap,
        place: Place,
        locals: &Scope,
        globals: &Scope,
        object: HostId,
        args: &Args,
    ) -> Result<Reply, HostRefusal> {
        let alloc = self.state.alloc;
        let site = site_of(self.state, place, Some(object))?;
        let caller = Caller {
            place,
            locals,
            globals,
        };
        match call(self.state, self.world, heap, caller, object, args) {
            Ok(reply) => Ok(reply),
            Err(stop) => Err(self.kept.refuse(alloc, site, stop)),
        }
    }

    fn attribute(
        &mut self,
        heap: &mut Heap,
        place: Place,
        object: HostId,
        name: &str,
    ) -> Result<Value, HostRefusal> {
        let alloc = self.state.alloc;
        let site = site_of(self.state, place, None)?;
        match attribute(self.state, heap, object, name) {
            Ok(value) => Ok(value),
            Err(refusal) => Err(self.kept.refuse(alloc, site, Stop::from(refusal))),
        }
    }

    fn index(
        &mut self,
        heap: &mut Heap,
        place: Place,
        object: HostId,
        key: Value,
    ) -> Result<Value, HostRefusal> {
        let alloc = self.state.alloc;
        let site = site_of(self.state, place, None)?;
        match item(self.state, heap, place, object, key) {
            Ok(value) => Ok(value),
            Err(refusal) => Err(self.kept.refuse(alloc, site, Stop::from(refusal))),
        }
    }

    fn set_index(
        &mut self,
        heap: &mut Heap,
        place: Place,
        object: HostId,
        key: Value,
        value: Value,
    ) -> Result<(), HostRefusal> {
        let alloc = self.state.alloc;
        let site = site_of(self.state, place, None)?;
        match set_item(self.state, heap, place, object, key, value) {
            Ok(()) => Ok(()),
            Err(refusal) => Err(self.kept.refuse(alloc, site, Stop::from(refusal))),
        }
    }

    fn print(&mut self, text: &str) -> Result<(), HostRefusal> {
        match print(self.out, text) {
            Ok(()) => Ok(()),
            Err(_) => {
                let site = site_of(self.state, NOWHERE, None)?;
                Err(self.kept.refuse(self.state.alloc, site, Stop::Out))
            }
        }
    }

    fn script_done(&mut self, heap: &mut Heap, _names: &Scope) -> Result<Reply, HostRefusal> {
        let alloc = self.state.alloc;
        let site = site_of(self.state, place_of(self.state), None)?;
        match script_done(self.state, self.world, heap) {
            Ok(reply) => Ok(reply),
            Err(stop) => Err(self.kept.refuse(alloc, site, stop)),
        }
    }

    fn next_script(&mut self, _heap: &mut Heap) -> Result<Option<Script>, HostRefusal> {
        let alloc = self.state.alloc;
        let site = site_of(self.state, NOWHERE, None)?;
        match next_first(self.state, self.world) {
            Ok(script) => Ok(script),
            Err(stop) => Err(self.kept.refuse(alloc, site, stop)),
        }
    }
}
