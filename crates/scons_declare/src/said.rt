//! The calls that say something of nodes: Depends, Requires, Ignore, AlwaysBuild; Alias and Default.
ghost use Rattle.std.specs.Prelude.{◌≡◌, ◌≢◌, map, Ok, Err, IfOk, IfErr, OnOk, option_copied};
ghost use Rattle.scons_decls.specs.Steps.{each, in_turn};
ghost use Rattle.scons_decls.specs.State.{declared_of};
ghost use Rattle.scons_declare.specs.Sayings as spec;

use env_subst::Mode;
use scons_base::{EnvId, Listing, Paths, Text, Texts};
use scons_decls::{
    Answer, Asked, Declarations, Given, NameFault, Nodes, Place, Role, Said, Saying, bad_argument,
    expanded, file_of, path_at,
};

/// `Depends(targets, nodes)` and its kin. They answer the targets.
pub(crate) fn say(
    state: &mut Declarations,
    env: EnvId,
    place: Place,
    saying: Saying,
    targets: &[Given],
    nodes: &[Given],
) -> Result<Answer, NameFault>
    ensures ok { IfOk result (λ a. spec.say (declared_of state.old) env.0 place saying targets.now nodes.now
        ≡ Ok (a, declared_of state.new)) }
    ensures fault { IfErr result (λ e. e ≢ NameFault.Memory
        → spec.say (declared_of state.old) env.0 place saying targets.now nodes.now ≡ Err e) }
{
    let members = members_of(state, env, nodes, call_name(saying), false)?;
    let mut files = Paths::new(Vec::new(state.alloc));
    let mut answer = Listing::empty(state.alloc);
    say_each(
        state,
        env,
        saying,
        &mut answer,
        &mut files,
        targets,
        members.as_slice(),
    )?;
    state.said.push(Said {
        place,
        saying,
        targets: files,
        nodes: members,
    })?;
    Ok(Answer::Targets(answer))
}

/// One target after another.
fn say_each(
    state: &mut Declarations,
    env: EnvId,
    saying: Saying,
    answer: &mut Nodes,
    files: &mut Paths,
    targets: &[Given],
    nodes: &[Given],
) -> Result<(), NameFault>
    ensures ok { OnOk result (in_turn (spec.says_of env.0 saying nodes.now) targets.now
        (spec.saids answer.old files.old (declared_of state.old))
        ≡ Ok (spec.saids answer.new files.new (declared_of state.new))) }
    ensures fault { IfErr result (λ e. e ≢ NameFault.Memory → in_turn (spec.says_of env.0 saying nodes.now) targets.now
        (spec.saids answer.old files.old (declared_of state.old)) ≡ Err e) }
{
    for target in targets {
        say_of(state, env, saying, answer, files, target, nodes)?;
    }
    Ok(())
}

/// The name of a call that says something.
fn call_name(saying: Saying) -> &'static str
    ensures { result.now ≡ spec.call_of saying }
{
    match saying {
        Saying::Depends => "Depends",
        Saying::Requires => "Requires",
        Saying::Ignore => "Ignore",
        Saying::Always => "AlwaysBuild",
    }
}

/// One target: a file is noted. What an alias depends on is a member of it, what it requires stands in front of its
/// members, and what it ignores is none.
#[tactic(auto, unfolding(crate::specs::Sayings::says_of))]
fn say_of(
    state: &mut Declarations,
    env: EnvId,
    saying: Saying,
    answer: &mut Nodes,
    files: &mut Paths,
    target: &Given,
    nodes: &[Given],
) -> Result<(), NameFault>
    ensures ok { OnOk result (spec.says_of env.0 saying nodes.now target.now
        (spec.saids answer.old files.old (declared_of state.old))
        ≡ Ok (spec.saids answer.new files.new (declared_of state.new))) }
    ensures fault { IfErr result (λ e. e ≢ NameFault.Memory → spec.says_of env.0 saying nodes.now target.now
        (spec.saids answer.old files.old (declared_of state.old)) ≡ Err e) }
{
    if let Some(name) = alias_in(state, target) {
        answer.push(Given::Alias(name.copy()?))?;
        return say_of_alias(state, saying, name, nodes);
    }
    let path = file_of(state, env, target, call_name(saying))?;
    if path.as_str() == "." {
        return Err(bad_argument(state, call_name(saying)));
    }
    files.push(path.copy()?)?;
    answer.push(Given::File(path))?;
    Ok(())
}

fn say_of_alias(
    state: &mut Declarations,
    saying: Saying,
    name: &Text,
    nodes: &[Given],
) -> Result<(), NameFault>
    ensures ok { OnOk result (declared_of state.new
        ≡ spec.said_of_alias saying nodes.now name.now (declared_of state.old)) }
    ensures fault { IfErr result (λ e. e ≡ NameFault.Memory) }
{
    let role = match saying {
        Saying::Depends => Role::Member,
        Saying::Requires => Role::Required,
        Saying::Ignore => Role::Ignored,
        Saying::Always => return Ok(()),
    };
    state.aliases.add(state.alloc, name, role, nodes)?;
    Ok(())
}

/// The nodes that arguments stand for. A directory is one where `dirs` says so.
fn members_of(
    state: &Declarations,
    env: EnvId,
    given: &[Given],
    name: &str,
    dirs: bool,
) -> Result<Nodes, NameFault>
    ensures ok { IfOk result (λ a. each (spec.member_of (declared_of state.now) env.0 name.now dirs) given.now ≡ Ok a) }
    ensures fault { IfErr result (λ e. e ≢ NameFault.Memory
        → each (spec.member_of (declared_of state.now) env.0 name.now dirs) given.now ≡ Err e) }
{
    let mut members = Listing::empty(state.alloc);
    for one in given {
        members.push(member_of(state, env, one, name, dirs)?)?;
    }
    Ok(members)
}

fn member_of(
    state: &Declarations,
    env: EnvId,
    given: &Given,
    name: &str,
    dirs: bool,
) -> Result<Given, NameFault>
    ensures ok { IfOk result (λ a. spec.member_of (declared_of state.now) env.0 name.now dirs given.now ≡ Ok a) }
    ensures fault { IfErr result (λ e. e ≢ NameFault.Memory
        → spec.member_of (declared_of state.now) env.0 name.now dirs given.now ≡ Err e) }
{
    if let Some(alias) = alias_in(state, given) {
        return Ok(Given::Alias(alias.copy()?));
    }
    match given {
        Given::Dir(path) if dirs => Ok(Given::Dir(path.copy()?)),
        _ => Ok(Given::File(file_of(state, env, given, name)?)),
    }
}

/// The name of the alias that an argument stands for. A text as it stands may name one that is declared already.
fn alias_in<'a>(state: &Declarations, given: &'a Given) -> Option<&'a Text>
    ensures { option_copied result ≡ spec.alias_in (declared_of state.now) given.now }
{
    match given {
        Given::Alias(name) => Some(name),
        Given::Text(text) if state.aliases.contains_key(text.as_str()) => Some(text),
        _ => None,
    }
}

/// `Alias(names, members)`. It answers the aliases.
pub(crate) fn alias(
    state: &mut Declarations,
    env: EnvId,
    names: &[Given],
    members: &[Given],
) -> Result<Answer, NameFault>
    ensures ok { IfOk result (λ a. spec.alias (declared_of state.old) env.0 names.now members.now
        ≡ Ok (a, declared_of state.new)) }
    ensures fault { IfErr result (λ e. e ≢ NameFault.Memory
        → spec.alias (declared_of state.old) env.0 names.now members.now ≡ Err e) }
{
    let members = members_of(state, env, members, "Alias", true)?;
    let names = alias_names(state, env, names)?;
    if names.as_slice().is_empty() {
        return Err(bad_argument(state, "Alias"));
    }
    let answer = alias_nodes(state, names.as_slice())?;
    add_members(state, names.as_slice(), members.as_slice())?;
    Ok(Answer::Targets(answer))
}

fn alias_names(state: &Declarations, env: EnvId, given: &[Given]) -> Result<Texts, NameFault>
    ensures ok { IfOk result (λ a. each (spec.alias_name (declared_of state.now) env.0) given.now ≡ Ok a) }
    ensures fault { IfErr result (λ e. e ≢ NameFault.Memory
        → each (spec.alias_name (declared_of state.now) env.0) given.now ≡ Err e) }
{
    let mut names = Texts::new(Vec::new(state.alloc));
    for one in given {
        names.push(alias_name(state, env, one)?)?;
    }
    Ok(names)
}

fn alias_nodes(state: &Declarations, names: &[Text]) -> Result<Nodes, NameFault>
    ensures ok { IfOk result (λ n. n ≡ map Given.Alias names.now) }
    ensures fault { IfErr result (λ e. e ≡ NameFault.Memory) }
{
    let mut nodes = Listing::empty(state.alloc);
    for name in names {
        nodes.push(Given::Alias(name.copy()?))?;
    }
    Ok(nodes)
}

fn add_members(state: &mut Declarations, names: &[Text], members: &[Given]) -> Result<(), NameFault>
    ensures ok { OnOk result (declared_of state.new ≡ spec.with_members members.now names.now (declared_of state.old)) }
    ensures fault { IfErr result (λ e. e ≡ NameFault.Memory) }
{
    for name in names {
        state.aliases.add(state.alloc, name, Role::Member, members)?;
    }
    Ok(())
}

fn alias_name(state: &Declarations, env: EnvId, given: &Given) -> Result<Text, NameFault>
    ensures ok { IfOk result (λ a. spec.alias_name (declared_of state.now) env.0 given.now ≡ Ok a) }
    ensures fault { IfErr result (λ e. e ≢ NameFault.Memory
        → spec.alias_name (declared_of state.now) env.0 given.now ≡ Err e) }
{
    match given {
        Given::Text(text) => expanded(state, env, text.as_str(), Mode::Text),
        Given::Alias(name) => Ok(name.copy()?),
        Given::File(_) | Given::Dir(_) => Err(bad_argument(state, "Alias")),
    }
}

/// `Default(targets)`
pub(crate) fn ask(
    state: &mut Declarations,
    env: EnvId,
    given: &[Given],
) -> Result<Answer, NameFault>
    ensures ok { IfOk result (λ a. spec.ask (declared_of state.old) env.0 given.now ≡ Ok (a, declared_of state.new)) }
    ensures fault { IfErr result (λ e. e ≢ NameFault.Memory
        → spec.ask (declared_of state.old) env.0 given.now ≡ Err e) }
{
    let mut all = all_asked(state, env, given)?;
    state.defaults.append(&mut all)?;
    Ok(Answer::Nothing)
}

fn all_asked(state: &Declarations, env: EnvId, given: &[Given]) -> Result<Vec<Asked>, NameFault>
    ensures ok { IfOk result (λ a. each (spec.asked_by (declared_of state.now) env.0) given.now ≡ Ok a.items) }
    ensures fault { IfErr result (λ e. e ≢ NameFault.Memory
        → each (spec.asked_by (declared_of state.now) env.0) given.now ≡ Err e) }
{
    let mut all = Vec::new(state.alloc);
    for one in given {
        all.push(asked_by(state, env, one)?)?;
    }
    Ok(all)
}

fn asked_by(state: &Declarations, env: EnvId, given: &Given) -> Result<Asked, NameFault>
    ensures ok { IfOk result (λ a. spec.asked_by (declared_of state.now) env.0 given.now ≡ Ok a) }
    ensures fault { IfErr result (λ e. e ≢ NameFault.Memory
        → spec.asked_by (declared_of state.now) env.0 given.now ≡ Err e) }
{
    match given {
        Given::Text(text) => {
            let text = expanded(state, env, text.as_str(), Mode::Text)?;
            let path = path_at(state, text.as_str())?;
            Ok(Asked::Text { text, path })
        }
        Given::File(path) | Given::Dir(path) => Ok(Asked::Path(path.copy()?)),
        Given::Alias(name) => Ok(Asked::Alias(name.copy()?)),
    }
}
