//! Objects, and what is linked of them.
ghost use Rattle.std.specs.Prelude.{◌≡◌, ◌≢◌, ◌<◌, [], length, Ok, Err, IfOk, IfErr, OnOk};
ghost use Rattle.std.specs.Str.{bytes_eq};
ghost use Rattle.indexmap.specs.IndexSet.{insert_all};
ghost use Rattle.scons_decls.specs.Steps.{each};
ghost use Rattle.scons_decls.specs.State.{declared_of};
ghost use Rattle.scons_declare.specs.Calls.{nodes_in};
ghost use Rattle.scons_declare.specs.Affixes as naming;
ghost use Rattle.scons_declare.specs.Linking as spec;

use crate::site::{Site, as_answer, declare_answering, declare_rule, one_path, only_path};
use crate::suffixes::{Affixes, affixed, affixes_of, target_of};
use env_subst::Mode;
use indexmap::IndexSet;
use scons_base::{PathText, Paths, Text};
use scons_decls::{
    Answer, Declarations, Given, NameFault, Recipe, bad_argument, expanded, file_of, language_of,
    listed,
};

/// `Object(source)` and `Object(target, source)`.
pub(crate) fn objects(
    state: &mut Declarations,
    site: Site,
    targets: Option<&[Given]>,
    sources: &[Given],
) -> Result<Answer, NameFault>
    ensures ok { IfOk result (λ a. spec.objects (declared_of state.old) site (nodes_in targets.entry) sources.now
        ≡ Ok (a, declared_of state.new)) }
    ensures fault { IfErr result (λ e. e ≢ NameFault.Memory
        → spec.objects (declared_of state.old) site (nodes_in targets.entry) sources.now ≡ Err e) }
{
    let object = object_affixes(state, site)?;
    match (targets, sources) {
        (None, sources) => each_object(state, site, &object, sources),
        (Some([target]), [source]) => one_object(state, site, &object, target, source),
        _ => Err(bad_argument(state, "Object")),
    }
}

/// The object of a source, with a target that is named.
#[tactic(auto, unfolding(crate::specs::Linking::one_object))]
fn one_object(
    state: &mut Declarations,
    site: Site,
    object: &Affixes,
    target: &Given,
    source: &Given,
) -> Result<Answer, NameFault>
    ensures ok { IfOk result (λ a. spec.one_object (declared_of state.old) site object.now target.now source.now
        ≡ Ok (a, declared_of state.new)) }
    ensures fault { IfErr result (λ e. e ≢ NameFault.Memory
        → spec.one_object (declared_of state.old) site object.now target.now source.now ≡ Err e) }
{
    let source = compiled_source(state, site, source)?;
    let target = named_path(state, site, target, object, "Object")?;
    let targets = only_path(state, target)?;
    let sources = only_path(state, source)?;
    declare_answering(state, site, Recipe::Object, targets, sources)
}

/// What stands behind the names of objects.
#[tactic(auto, unfolding(crate::specs::Linking::object_affixes))]
fn object_affixes(state: &Declarations, site: Site) -> Result<Affixes, NameFault>
    ensures ok { IfOk result (λ a. spec.object_affixes (declared_of state.now) site ≡ Ok a) }
    ensures fault { IfErr result (λ e. e ≢ NameFault.Memory → spec.object_affixes (declared_of state.now) site ≡ Err e) }
{
    affixes_of(state, site.env, "", "$OBJSUFFIX")
}

fn each_object(
    state: &mut Declarations,
    site: Site,
    object: &Affixes,
    sources: &[Given],
) -> Result<Answer, NameFault>
    ensures ok { IfOk result (λ a. spec.answers_found (spec.found_in_turn (spec.given_object site object.now)
        sources.now (declared_of state.old)) ≡ Ok (a, declared_of state.new)) }
    ensures fault { IfErr result (λ e. e ≢ NameFault.Memory → spec.answers_found (spec.found_in_turn
        (spec.given_object site object.now) sources.now (declared_of state.old)) ≡ Err e) }
{
    let mut targets = Paths::new(Vec::new(state.alloc));
    for source in sources {
        targets.push(given_object(state, site, object, source)?)?;
    }
    as_answer(state, targets.as_slice())
}

/// The object of a source as it is given.
#[tactic(auto, unfolding(crate::specs::Linking::given_object))]
fn given_object(
    state: &mut Declarations,
    site: Site,
    object: &Affixes,
    source: &Given,
) -> Result<PathText, NameFault>
    ensures ok { IfOk result (λ a. spec.given_object site object.now source.now (declared_of state.old)
        ≡ Ok (a, declared_of state.new)) }
    ensures fault { IfErr result (λ e. e ≢ NameFault.Memory
        → spec.given_object site object.now source.now (declared_of state.old) ≡ Err e) }
{
    let source = compiled_source(state, site, source)?;
    object_of(state, site, object, &source)
}

/// A source that compilers take. A text without a suffix names a C source.
fn compiled_source(state: &Declarations, site: Site, source: &Given) -> Result<PathText, NameFault>
    ensures ok { IfOk result (λ a. spec.compiled_source (declared_of state.now) site source.now ≡ Ok a) }
    ensures fault { IfErr result (λ e. e ≢ NameFault.Memory
        → spec.compiled_source (declared_of state.now) site source.now ≡ Err e) }
{
    let c = affixes_of(state, site.env, "", ".c")?;
    let path = named_path(state, site, source, &c, "Object")?;
    match language_of(&path) {
        Some(_) => Ok(path),
        None => Err(NameFault::BadSuffix(path)),
    }
}

/// The path of a target, or of a source: one that is given by a text gets a prefix and a suffix, where its name has none.
#[tactic(auto, unfolding(crate::specs::Affixes::named))]
pub(crate) fn named_path(
    state: &Declarations,
    site: Site,
    given: &Given,
    affixes: &Affixes,
    name: &str,
) -> Result<PathText, NameFault>
    ensures ok { IfOk result (λ a. naming.named (declared_of state.now) site.env.0 name.now affixes.now given.now
        ≡ Ok a) }
    ensures fault { IfErr result (λ e. e ≢ NameFault.Memory
        → naming.named (declared_of state.now) site.env.0 name.now affixes.now given.now ≡ Err e) }
{
    let path = file_of(state, site.env, given, name)?;
    match given {
        Given::Text(_) if !affixes.are_empty() => affixed(state, &path, affixes),
        _ => Ok(path),
    }
}

/// The object of a source, which is declared.
fn object_of(
    state: &mut Declarations,
    site: Site,
    object: &Affixes,
    source: &PathText,
) -> Result<PathText, NameFault>
    ensures ok { IfOk result (λ a. spec.object_of (declared_of state.old) site object.now source.now
        ≡ Ok (a, declared_of state.new)) }
    ensures fault { IfErr result (λ e. e ≢ NameFault.Memory
        → spec.object_of (declared_of state.old) site object.now source.now ≡ Err e) }
{
    let target = target_of(state, source, "", object)?;
    declare_object(state, site, &target, source)?;
    Ok(target)
}

fn declare_object(
    state: &mut Declarations,
    site: Site,
    target: &PathText,
    source: &PathText,
) -> Result<(), NameFault>
    ensures ok { OnOk result (declared_of state.new
        ≡ spec.with_object site target.now source.now (declared_of state.old)) }
    ensures fault { IfErr result (λ e. e ≡ NameFault.Memory) }
{
    let targets = one_path(state, target)?;
    let sources = one_path(state, source)?;
    declare_rule(state, site, Recipe::Object, targets, sources)
}

/// What a program and a library put round the names of their targets, and how their objects are named.
#[derive(Drop)]
struct Linking {
    target: Affixes,
    object: Affixes,
    lib_suffix: Text,
}

fn linking_of(
    state: &Declarations,
    site: Site,
    prefix: &str,
    suffix: &str,
) -> Result<Linking, NameFault>
    ensures ok { IfOk result (λ a. spec.linking_of (declared_of state.now) site prefix.now suffix.now ≡ Ok a) }
    ensures fault { IfErr result (λ e. e ≢ NameFault.Memory
        → spec.linking_of (declared_of state.now) site prefix.now suffix.now ≡ Err e) }
{
    let target = affixes_of(state, site.env, prefix, suffix)?;
    let object = object_affixes(state, site)?;
    let lib_suffix = expanded(state, site.env, "$LIBSUFFIX", Mode::Text)?;
    Ok(Linking {
        target,
        object,
        lib_suffix,
    })
}

/// `Program` and `StaticLibrary`: C and C++ sources become objects first. A prefix and a suffix go round the names of
/// targets.
pub(crate) fn linked(
    state: &mut Declarations,
    site: Site,
    recipe: Recipe,
    name: &str,
    prefix: &str,
    suffix: &str,
    targets: Option<&[Given]>,
    sources: &[Given],
) -> Result<Answer, NameFault>
    ensures ok { IfOk result (λ a. spec.linked (declared_of state.old) site recipe name.now prefix.now suffix.now
        (nodes_in targets.entry) sources.now ≡ Ok (a, declared_of state.new)) }
    ensures fault { IfErr result (λ e. e ≢ NameFault.Memory → spec.linked (declared_of state.old) site recipe
        name.now prefix.now suffix.now (nodes_in targets.entry) sources.now ≡ Err e) }
{
    let linking = linking_of(state, site, prefix, suffix)?;
    let targets = linked_targets(state, site, &linking, name, targets, sources)?;
    let sources = linked_sources(state, site, &linking, name, sources)?;
    declare_answering(state, site, recipe, targets, sources)
}

fn linked_targets(
    state: &Declarations,
    site: Site,
    linking: &Linking,
    name: &str,
    targets: Option<&[Given]>,
    sources: &[Given],
) -> Result<Paths, NameFault>
    ensures ok { IfOk result (λ p. spec.linked_targets (declared_of state.now) site linking.now name.now
        (nodes_in targets.entry) sources.now ≡ Ok p) }
    ensures fault { IfErr result (λ e. e ≢ NameFault.Memory → spec.linked_targets (declared_of state.now) site
        linking.now name.now (nodes_in targets.entry) sources.now ≡ Err e) }
    ensures some { IfOk result (λ p. 0 < length p) }
{
    let Some(targets) = targets else {
        let Some(first) = sources.first() else {
            return Err(NameFault::NoSource);
        };
        let source = named_path(state, site, first, &linking.object, name)?;
        let target = target_of(state, &source, "", &linking.target)?;
        return one_path(state, &target);
    };
    distinct_targets(state, site, &linking.target, name, targets)
}

/// Targets with a prefix and a suffix, each once.
pub(crate) fn distinct_targets(
    state: &Declarations,
    site: Site,
    affixes: &Affixes,
    name: &str,
    targets: &[Given],
) -> Result<Paths, NameFault>
    ensures ok { IfOk result (λ p. naming.targets_of (declared_of state.now) site.env.0 name.now affixes.now
        targets.now
        ≡ Ok p) }
    ensures fault { IfErr result (λ e. e ≢ NameFault.Memory
        → naming.targets_of (declared_of state.now) site.env.0 name.now affixes.now targets.now ≡ Err e) }
    ensures some { IfOk result (λ p. 0 < length p) }
{
    let paths = named_all(state, site, affixes, name, targets)?;
    each_once(state, name, paths)
}

/// Targets, or sources, in order: those that are given by texts get a prefix and a suffix.
pub(crate) fn named_all(
    state: &Declarations,
    site: Site,
    affixes: &Affixes,
    name: &str,
    given: &[Given],
) -> Result<Paths, NameFault>
    ensures ok { IfOk result (λ a. each (naming.named (declared_of state.now) site.env.0 name.now affixes.now)
        given.now
        ≡ Ok a) }
    ensures fault { IfErr result (λ e. e ≢ NameFault.Memory
        → each (naming.named (declared_of state.now) site.env.0 name.now affixes.now) given.now ≡ Err e) }
{
    let mut paths = Paths::new(Vec::new(state.alloc));
    for one in given {
        paths.push(named_path(state, site, one, affixes, name)?)?;
    }
    Ok(paths)
}

/// The targets of the call `name`, each once. There has to be one.
pub(crate) fn each_once(state: &Declarations, name: &str, paths: Paths) -> Result<Paths, NameFault>
    ensures ok { IfOk result (λ p. naming.each_once name.now paths ≡ Ok p) }
    ensures fault { IfErr result (λ e. e ≢ NameFault.Memory → naming.each_once name.now paths ≡ Err e) }
    ensures some { IfOk result (λ p. 0 < length p) }
{
    match paths.as_slice() {
        [] => Err(bad_argument(state, name)),
        [_] => Ok(paths),
        several => distinct(state, several),
    }
}

/// Several paths, each once, at its first place.
fn distinct(state: &Declarations, paths: &[PathText]) -> Result<Paths, NameFault>
    ensures ok { IfOk result (λ p. p ≡ insert_all bytes_eq [] paths.now) }
    ensures fault { IfErr result (λ e. e ≡ NameFault.Memory) }
{
    let mut once = IndexSet::new(state.alloc);
    for path in paths {
        once.insert(path.copy()?)?;
    }
    listed(state, once.as_slice())
}

fn linked_sources(
    state: &mut Declarations,
    site: Site,
    linking: &Linking,
    name: &str,
    sources: &[Given],
) -> Result<Paths, NameFault>
    ensures ok { IfOk result (λ a. spec.found_in_turn (spec.linked_source site linking.now name.now) sources.now
        (declared_of state.old) ≡ Ok (a, declared_of state.new)) }
    ensures fault { IfErr result (λ e. e ≢ NameFault.Memory → spec.found_in_turn
        (spec.linked_source site linking.now name.now) sources.now (declared_of state.old) ≡ Err e) }
{
    let mut paths = Paths::new(Vec::new(state.alloc));
    for source in sources {
        paths.push(linked_source(state, site, linking, name, source)?)?;
    }
    Ok(paths)
}

/// A source as it is given, and as it is linked.
#[tactic(auto, unfolding(crate::specs::Linking::linked_source))]
fn linked_source(
    state: &mut Declarations,
    site: Site,
    linking: &Linking,
    name: &str,
    source: &Given,
) -> Result<PathText, NameFault>
    ensures ok { IfOk result (λ a. spec.linked_source site linking.now name.now source.now (declared_of state.old)
        ≡ Ok (a, declared_of state.new)) }
    ensures fault { IfErr result (λ e. e ≢ NameFault.Memory
        → spec.linked_source site linking.now name.now source.now (declared_of state.old) ≡ Err e) }
{
    let path = named_path(state, site, source, &linking.object, name)?;
    linked_path(state, site, linking, path)
}

/// A path as it is linked: the object of a C or C++ source, an object or a library as it is.
fn linked_path(
    state: &mut Declarations,
    site: Site,
    linking: &Linking,
    source: PathText,
) -> Result<PathText, NameFault>
    ensures ok { IfOk result (λ a. spec.linked_path site linking.now source (declared_of state.old)
        ≡ Ok (a, declared_of state.new)) }
    ensures fault { IfErr result (λ e. e ≢ NameFault.Memory
        → spec.linked_path site linking.now source (declared_of state.old) ≡ Err e) }
{
    if language_of(&source).is_some() {
        return object_of(state, site, &linking.object, &source);
    }
    if is_linkable(linking, &source) {
        return Ok(source);
    }
    Err(NameFault::BadSuffix(source))
}

fn is_linkable(linking: &Linking, source: &PathText) -> bool
    ensures { result ≡ spec.is_linkable linking.now source.now }
{
    let suffix = source.suffix();
    let name = source.name();
    suffix == ".o"
        || suffix == ".a"
        || ends_with(name, linking.object.suffix.as_str())
        || ends_with(name, linking.lib_suffix.as_str())
}

fn ends_with(name: &str, suffix: &str) -> bool
    ensures { result ≡ spec.has_suffix suffix.now name.now }
{
    !suffix.is_empty() && name.as_bytes().ends_with(suffix.as_bytes())
}
