//! The calls of builders.
ghost use Rattle.std.specs.Prelude.{◌≡◌, ◌≢◌, Ok, Err, IfOk, IfErr};
ghost use Rattle.scons_decls.specs.State.{declared_of};
ghost use Rattle.std.specs.Option.{option_map};
ghost use Rattle.scons_declare.specs.Calls.{nodes_in};
ghost use Rattle.scons_declare.specs.Names as spec;

use crate::objects::{linked, objects};
use crate::own::own_rule;
use crate::site::{Site, site_of};
use scons_base::{EnvId, Text};
use scons_decls::{Answer, Declarations, Given, Maker, NameFault, Nodes, Place, Recipe, Variables};

/// Calls a builder.
pub(crate) fn build(
    state: &mut Declarations,
    env: EnvId,
    place: Place,
    maker: &Maker,
    targets: &Option<Nodes>,
    sources: &Nodes,
    variables: &Variables,
) -> Result<Answer, NameFault>
    ensures ok { IfOk result (λ a. spec.build (declared_of state.old) env.0 place maker.now targets.now sources.now
        variables.now
        ≡ Ok (a, declared_of state.new)) }
    ensures fault { IfErr result (λ e. e ≢ NameFault.Memory
        → spec.build (declared_of state.old) env.0 place maker.now targets.now sources.now variables.now ≡ Err e) }
{
    let own = own_builder(state, env, maker)?;
    if sources.is_empty() && !matches!(maker, Maker::Own(_)) {
        return Err(NameFault::NoSource);
    }
    let site = site_of(state, env, place, variables)?;
    let targets = slice_of(targets);
    let sources = sources.as_slice();
    match maker {
        Maker::Object => objects(state, site, targets, sources),
        Maker::Program => program(state, site, targets, sources),
        Maker::StaticLibrary => static_library(state, site, targets, sources),
        Maker::Own(name) => own_rule(state, site, own, name.as_str(), targets, sources),
    }
}

fn program(
    state: &mut Declarations,
    site: Site,
    targets: Option<&[Given]>,
    sources: &[Given],
) -> Result<Answer, NameFault>
    ensures ok { IfOk result (λ a. spec.program (declared_of state.old) site (nodes_in targets.entry) sources.now
        ≡ Ok (a, declared_of state.new)) }
    ensures fault { IfErr result (λ e. e ≢ NameFault.Memory
        → spec.program (declared_of state.old) site (nodes_in targets.entry) sources.now ≡ Err e) }
{
    linked(
        state,
        site,
        Recipe::Program,
        "Program",
        "",
        "$PROGSUFFIX",
        targets,
        sources,
    )
}

fn static_library(
    state: &mut Declarations,
    site: Site,
    targets: Option<&[Given]>,
    sources: &[Given],
) -> Result<Answer, NameFault>
    ensures ok { IfOk result (λ a. spec.static_library (declared_of state.old) site (nodes_in targets.entry)
        sources.now ≡ Ok (a, declared_of state.new)) }
    ensures fault { IfErr result (λ e. e ≢ NameFault.Memory
        → spec.static_library (declared_of state.old) site (nodes_in targets.entry) sources.now ≡ Err e) }
{
    linked(
        state,
        site,
        Recipe::StaticLibrary,
        "StaticLibrary",
        "$LIBPREFIX",
        "$LIBSUFFIX",
        targets,
        sources,
    )
}

/// What stands for nodes, where any are given.
pub(crate) fn slice_of(nodes: &Option<Nodes>) -> Option<&[Given]>
    ensures { option_map (λ l. l.now) result ≡ nodes.now }
{
    match nodes {
        Some(nodes) => Some(nodes.as_slice()),
        None => None,
    }
}

/// The number of the builder that a name of the environment calls.
fn own_builder(state: &Declarations, env: EnvId, maker: &Maker) -> Result<u32, NameFault>
    ensures ok { IfOk result (λ a. spec.builder_called (declared_of state.now) env.0 maker.now ≡ Ok a) }
    ensures fault { IfErr result (λ e. e ≢ NameFault.Memory
        → spec.builder_called (declared_of state.now) env.0 maker.now ≡ Err e) }
{
    let Maker::Own(name) = maker else {
        return Ok(0);
    };
    match state.envs.builder_of(env, name.as_str()) {
        Some(builder) => Ok(builder),
        None => Err(unknown(name)),
    }
}

fn unknown(name: &Text) -> NameFault
    ensures { result ≢ NameFault.Memory → result ≡ NameFault.UnknownBuilder name.now }
{
    match name.copy() {
        Ok(name) => NameFault::UnknownBuilder(name),
        Err(_) => NameFault::Memory,
    }
}
