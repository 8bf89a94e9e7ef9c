//! Where a rule is declared.
ghost use Rattle.std.specs.Prelude.{◌≡◌, ◌≢◌, ◌<◌, [], ◌∷◌, length, Ok, Err, IfOk, IfErr, OnOk};
ghost use Rattle.scons_decls.specs.State.{declared_of};
ghost use Rattle.scons_declare.specs.Sites as spec;

use scons_base::{EnvId, Listing, PathText, Paths};
use scons_decls::{
    Answer, Declaration, Declarations, Given, NameFault, Nodes, Place, Recipe, Variables, as_nodes,
};
use world_api::Decider;

/// The place of a call, the environment of its rules and their decider.
#[derive(Clone, Copy)]
pub(crate) struct Site {
    pub(crate) place: Place,
    pub(crate) env: EnvId,
    pub(crate) decider: Decider,
}

/// A call in an environment, with variables of its own.
pub(crate) fn site_of(
    state: &mut Declarations,
    env: EnvId,
    place: Place,
    variables: &Variables,
) -> Result<Site, NameFault>
    ensures ok { IfOk result (λ a. spec.called_at (declared_of state.old) env.0 place variables.now
        ≡ Ok (a, declared_of state.new)) }
    ensures fault { IfErr result (λ e. e ≢ NameFault.Memory
        → spec.called_at (declared_of state.old) env.0 place variables.now ≡ Err e) }
{
    let decider = state.envs.decider(env);
    let env = state.envs.of_call(env, variables.values.as_slice())?;
    Ok(Site {
        place,
        env,
        decider,
    })
}

/// Declares one rule.
pub(crate) fn declare_rule(
    state: &mut Declarations,
    site: Site,
    recipe: Recipe,
    targets: Paths,
    sources: Paths,
) -> Result<(), NameFault>
    requires { 0 < length targets }
    ensures ok { OnOk result (declared_of state.new ≡ spec.with_rule (declared_of state.old) site recipe targets
        sources) }
    ensures fault { IfErr result (λ e. e ≡ NameFault.Memory) }
{
    add_made(state, targets.as_slice())?;
    let dir = state.locals.dir.copy()?;
    state.rules.push(Declaration {
        place: site.place,
        env: site.env,
        dir,
        recipe,
        decider: site.decider,
        targets,
        sources,
    })?;
    Ok(())
}

/// Declares one rule, and answers its targets.
pub(crate) fn declare_answering(
    state: &mut Declarations,
    site: Site,
    recipe: Recipe,
    targets: Paths,
    sources: Paths,
) -> Result<Answer, NameFault>
    requires { 0 < length targets }
    ensures ok { IfOk result (λ a. spec.declares (declared_of state.old) site recipe targets sources
        ≡ Ok (a, declared_of state.new)) }
    ensures fault { IfErr result (λ e. e ≡ NameFault.Memory) }
{
    let answer = as_answer(state, targets.as_slice())?;
    declare_rule(state, site, recipe, targets, sources)?;
    Ok(answer)
}

fn add_made(state: &mut Declarations, targets: &[PathText]) -> Result<(), NameFault>
    ensures ok { OnOk result (declared_of state.new ≡ spec.with_made targets.now (declared_of state.old)) }
    ensures fault { IfErr result (λ e. e ≡ NameFault.Memory) }
{
    for target in targets {
        state.made.add(state.alloc, target)?;
    }
    Ok(())
}

/// A call in an environment that gives no variables.
pub(crate) fn plain_site(state: &Declarations, env: EnvId, place: Place) -> Site
    ensures { result ≡ spec.plain_site (declared_of state.now) env.0 place }
{
    Site {
        place,
        env,
        decider: state.envs.decider(env),
    }
}

/// These paths as a call answers them.
pub(crate) fn as_answer(state: &Declarations, paths: &[PathText]) -> Result<Answer, NameFault>
    ensures ok { IfOk result (λ a. a ≡ spec.answer_of paths.now) }
    ensures fault { IfErr result (λ e. e ≡ NameFault.Memory) }
{
    Ok(Answer::Targets(as_nodes(state, paths)?))
}

pub(crate) fn one_path(state: &Declarations, path: &PathText) -> Result<Paths, NameFault>
    ensures ok { IfOk result (λ p. p ≡ path.now ∷ []) }
    ensures fault { IfErr result (λ e. e ≡ NameFault.Memory) }
{
    only_path(state, path.copy()?)
}

pub(crate) fn only_path(state: &Declarations, path: PathText) -> Result<Paths, NameFault>
    ensures ok { IfOk result (λ p. p ≡ path ∷ []) }
    ensures fault { IfErr result (λ e. e ≡ NameFault.Memory) }
{
    let mut paths = Paths::new(Vec::with_capacity(state.alloc, 1)?);
    paths.push(path)?;
    Ok(paths)
}
