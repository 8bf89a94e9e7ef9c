//! One call, declared.
ghost use Rattle.std.specs.Prelude.{◌≡◌, ◌≢◌, [], ◌∷◌, Ok, Err, IfOk, IfErr};
ghost use Rattle.scons_decls.specs.State.{declared_of};
ghost use Rattle.scons_declare.specs.Sayings as sayings;
ghost use Rattle.scons_declare.specs.Names as spec;

use crate::build::{build, slice_of};
use crate::environment_calls::{
    change, change_default, clone_environment, get, new_environment, set, set_builder, set_decider,
    subst,
};
use crate::install::{install, install_as};
use crate::own::{command, new_builder};
use crate::said::{alias, ask, say};
use crate::site::{plain_site, site_of};
use crate::writing::{substfile, textfile};
use env_subst::Mode;
use scons_base::{EnvId, Listing, Text};
use scons_decls::{
    Answer, Call, Declarations, Given, NameFault, Place, RuleCall, SayCall, Saying, dir_of,
    expanded, file_of,
};

/// Declares a call that stands at a place and is made in an environment.
pub fn declare(
    state: &mut Declarations,
    env: EnvId,
    place: Place,
    call: &Call,
) -> Result<Answer, NameFault>
    ensures ok { IfOk result (λ a. spec.declared_by (declared_of state.old) env.0 place call.now
        ≡ Ok (a, declared_of state.new)) }
    ensures fault { IfErr result (λ e. e ≢ NameFault.Memory
        → spec.declared_by (declared_of state.old) env.0 place call.now ≡ Err e) }
{
    match call {
        Call::Environment(variables) => new_environment(state, variables),
        Call::DefaultEnvironment(variables) => change_default(state, variables),
        Call::Clone(variables) => clone_environment(state, env, variables),
        Call::Change(how, variables) => change(state, env, *how, variables),
        Call::Set(name, value) => set(state, env, name, value),
        Call::SetBuilder(name, builder) => set_builder(state, env, name, *builder),
        Call::Get(name) => get(state, env, name),
        Call::Subst(text, mode) => subst(state, env, text, *mode),
        Call::Decider(name) => set_decider(state, env, name),
        Call::NewBuilder(builder) => new_builder(state, builder),
        Call::File(given) => file(state, env, given),
        Call::Dir(given) => dir(state, env, given),
        Call::Help(text) => help(state, env, text),
        Call::Default(given) => ask(state, env, given.as_slice()),
        Call::VariantDir {
            variant,
            source,
            duplicate,
        } => variant_dir(state, env, variant, source, *duplicate),
        Call::Rules(call) => declare_rules(state, env, place, call),
        Call::Says(call) => declare_said(state, env, place, call),
    }
}

/// The calls that declare rules.
fn declare_rules(
    state: &mut Declarations,
    env: EnvId,
    place: Place,
    call: &RuleCall,
) -> Result<Answer, NameFault>
    ensures ok { IfOk result (λ a. spec.declares_rules (declared_of state.old) env.0 place call.now
        ≡ Ok (a, declared_of state.new)) }
    ensures fault { IfErr result (λ e. e ≢ NameFault.Memory
        → spec.declares_rules (declared_of state.old) env.0 place call.now ≡ Err e) }
{
    match call {
        RuleCall::Build {
            maker,
            targets,
            sources,
            variables,
        } => build(state, env, place, maker, targets, sources, variables),
        RuleCall::Command {
            targets,
            sources,
            action,
            variables,
        } => {
            let site = site_of(state, env, place, variables)?;
            command(state, site, targets.as_slice(), sources.as_slice(), action)
        }
        RuleCall::Textfile {
            targets,
            texts,
            pairs,
            variables,
        } => {
            let site = site_of(state, env, place, variables)?;
            textfile(state, site, targets.as_slice(), texts, pairs.as_slice())
        }
        RuleCall::Substfile {
            targets,
            sources,
            pairs,
            variables,
        } => {
            let site = site_of(state, env, place, variables)?;
            let targets = slice_of(targets);
            substfile(state, site, targets, sources.as_slice(), pairs.as_slice())
        }
        RuleCall::Install { dirs, sources } => {
            let site = plain_site(state, env, place);
            install(state, site, dirs.as_slice(), sources.as_slice())
        }
        RuleCall::InstallAs { targets, sources } => {
            let site = plain_site(state, env, place);
            install_as(state, site, targets.as_slice(), sources.as_slice())
        }
    }
}

/// The calls that say something of targets.
fn declare_said(
    state: &mut Declarations,
    env: EnvId,
    place: Place,
    call: &SayCall,
) -> Result<Answer, NameFault>
    ensures ok { IfOk result (λ a. spec.says_something (declared_of state.old) env.0 place call.now
        ≡ Ok (a, declared_of state.new)) }
    ensures fault { IfErr result (λ e. e ≢ NameFault.Memory
        → spec.says_something (declared_of state.old) env.0 place call.now ≡ Err e) }
{
    let (saying, targets, nodes) = match call {
        SayCall::Depends { targets, nodes } => (
            Saying::Depends,
            targets.as_slice(),
            nodes.as_slice(),
        ),
        SayCall::Requires { targets, nodes } => (
            Saying::Requires,
            targets.as_slice(),
            nodes.as_slice(),
        ),
        SayCall::Ignore { targets, nodes } => (
            Saying::Ignore,
            targets.as_slice(),
            nodes.as_slice(),
        ),
        SayCall::Alias { names, members } => {
            return alias(state, env, names.as_slice(), members.as_slice());
        }
        SayCall::AlwaysBuild(targets) => {
            let none = Listing::empty(state.alloc);
            return say(
                state,
                env,
                place,
                Saying::Always,
                targets.as_slice(),
                none.as_slice(),
            );
        }
    };
    say(state, env, place, saying, targets, nodes)
}

/// `File(name)`
fn file(state: &Declarations, env: EnvId, given: &Given) -> Result<Answer, NameFault>
    ensures ok { IfOk result (λ a. spec.file (declared_of state.now) env.0 given.now ≡ Ok (a, declared_of state.now)) }
    ensures fault { IfErr result (λ e. e ≢ NameFault.Memory
        → spec.file (declared_of state.now) env.0 given.now ≡ Err e) }
{
    let path = file_of(state, env, given, "File")?;
    one_node(state, Given::File(path))
}

/// `Dir(name)`
fn dir(state: &Declarations, env: EnvId, given: &Given) -> Result<Answer, NameFault>
    ensures ok { IfOk result (λ a. spec.dir (declared_of state.now) env.0 given.now ≡ Ok (a, declared_of state.now)) }
    ensures fault { IfErr result (λ e. e ≢ NameFault.Memory
        → spec.dir (declared_of state.now) env.0 given.now ≡ Err e) }
{
    let path = dir_of(state, env, given, "Dir")?;
    one_node(state, Given::Dir(path))
}

fn one_node(state: &Declarations, node: Given) -> Result<Answer, NameFault>
    ensures ok { IfOk result (λ a. a ≡ Answer.Targets (node ∷ [])) }
    ensures fault { IfErr result (λ e. e ≡ NameFault.Memory) }
{
    let mut nodes = Listing::empty(state.alloc);
    nodes.push(node)?;
    Ok(Answer::Targets(nodes))
}

/// `Help(text)`
fn help(state: &mut Declarations, env: EnvId, text: &Text) -> Result<Answer, NameFault>
    ensures ok { IfOk result (λ a. sayings.help (declared_of state.old) env.0 text.now
        ≡ Ok (a, declared_of state.new)) }
    ensures fault { IfErr result (λ e. e ≢ NameFault.Memory
        → sayings.help (declared_of state.old) env.0 text.now ≡ Err e) }
{
    let text = expanded(state, env, text.as_str(), Mode::Raw)?;
    state.helps.push(text)?;
    Ok(Answer::Nothing)
}

/// `VariantDir(variant, source, duplicate)`
fn variant_dir(
    state: &mut Declarations,
    env: EnvId,
    variant: &Given,
    source: &Given,
    duplicate: bool,
) -> Result<Answer, NameFault>
    ensures ok { IfOk result (λ a. spec.variant_dir (declared_of state.old) env.0 variant.now source.now duplicate
        ≡ Ok (a, declared_of state.new)) }
    ensures fault { IfErr result (λ e. e ≢ NameFault.Memory
        → spec.variant_dir (declared_of state.old) env.0 variant.now source.now duplicate ≡ Err e) }
{
    let variant = dir_of(state, env, variant, "VariantDir")?;
    let source = dir_of(state, env, source, "VariantDir")?;
    state.locals.variants.add(&variant, &source, duplicate)?;
    Ok(Answer::Nothing)
}
