//! Textfile and Substfile: rules that write.
ghost use Rattle.std.specs.Prelude.{◌≡◌, ◌≢◌, ◌<◌, length, Ok, Err, IfOk, IfErr};
ghost use Rattle.scons_decls.specs.State.{declared_of};
ghost use Rattle.scons_declare.specs.Calls.{nodes_in};
ghost use Rattle.scons_declare.specs.Writes as spec;

use crate::objects::named_path;
use crate::site::{Site, declare_answering, only_path};
use crate::suffixes::{affixes_of, without};
use scons_base::{Listing, Memory, PathText, Paths, Text, Texts};
use scons_decls::{
    Answer, Declarations, Given, NameFault, Pairs, Recipe, bad_argument, file_of, files_of,
};

/// The suffix of the file that a Substfile is made of, where its target isn't named.
const SOURCE_SUFFIX: &str = ".in";

/// `Textfile(target, source, SUBST_DICT)`: a target without a suffix gets one.
pub(crate) fn textfile(
    state: &mut Declarations,
    site: Site,
    targets: &[Given],
    texts: &Texts,
    pairs: &[(Text, Text)],
) -> Result<Answer, NameFault>
    ensures ok { IfOk result (λ a. spec.textfile (declared_of state.old) site targets.now texts.now pairs.now
        ≡ Ok (a, declared_of state.new)) }
    ensures fault { IfErr result (λ e. e ≢ NameFault.Memory
        → spec.textfile (declared_of state.old) site targets.now texts.now pairs.now ≡ Err e) }
{
    let [target] = targets else {
        return Err(bad_argument(state, "Textfile"));
    };
    let target = text_target(state, site, target)?;
    let recipe = Recipe::Textfile(texts.copy()?, copies_of(state, pairs)?);
    let targets = only_path(state, target)?;
    let sources = Paths::new(Vec::new(state.alloc));
    declare_answering(state, site, recipe, targets, sources)
}

/// The target of a Textfile.
#[tactic(auto, unfolding(crate::specs::Writes::text_target))]
fn text_target(state: &Declarations, site: Site, target: &Given) -> Result<PathText, NameFault>
    ensures ok { IfOk result (λ p. spec.text_target (declared_of state.now) site target.now ≡ Ok p) }
    ensures fault { IfErr result (λ e. e ≢ NameFault.Memory
        → spec.text_target (declared_of state.now) site target.now ≡ Err e) }
{
    let affixes = affixes_of(state, site.env, "", ".txt")?;
    named_path(state, site, target, &affixes, "Textfile")
}

/// `Substfile(target, source, SUBST_DICT)` and `Substfile(source, SUBST_DICT)`.
pub(crate) fn substfile(
    state: &mut Declarations,
    site: Site,
    targets: Option<&[Given]>,
    sources: &[Given],
    pairs: &[(Text, Text)],
) -> Result<Answer, NameFault>
    ensures ok { IfOk result (λ a. spec.substfile (declared_of state.old) site (nodes_in targets.entry) sources.now
        pairs.now
        ≡ Ok (a, declared_of state.new)) }
    ensures fault { IfErr result (λ e. e ≢ NameFault.Memory
        → spec.substfile (declared_of state.old) site (nodes_in targets.entry) sources.now pairs.now ≡ Err e) }
{
    let sources = files_of(state, site.env, sources, "Substfile")?;
    let targets = substituted(state, site, targets, sources.as_slice())?;
    let recipe = Recipe::Substfile(copies_of(state, pairs)?);
    declare_answering(state, site, recipe, targets, sources)
}

/// The one target of a Substfile: where none is named, its one source without `.in`.
fn substituted(
    state: &Declarations,
    site: Site,
    targets: Option<&[Given]>,
    sources: &[PathText],
) -> Result<Paths, NameFault>
    ensures ok { IfOk result (λ p. spec.substituted (declared_of state.now) site (nodes_in targets.entry) sources.now
        ≡ Ok p) }
    ensures fault { IfErr result (λ e. e ≢ NameFault.Memory
        → spec.substituted (declared_of state.now) site (nodes_in targets.entry) sources.now ≡ Err e) }
    ensures some { IfOk result (λ p. 0 < length p) }
{
    match (targets, sources) {
        (Some([target]), _) => only_path(state, file_of(state, site.env, target, "Substfile")?),
        (None, [source]) => by_source(state, source),
        _ => Err(bad_argument(state, "Substfile")),
    }
}

/// The target by a source, which has to end in `.in`.
#[tactic(auto, unfolding(crate::specs::Writes::by_source))]
fn by_source(state: &Declarations, source: &PathText) -> Result<Paths, NameFault>
    ensures ok { IfOk result (λ p. spec.by_source source.now ≡ Ok p) }
    ensures fault { IfErr result (λ e. e ≢ NameFault.Memory → spec.by_source source.now ≡ Err e) }
    ensures some { IfOk result (λ p. 0 < length p) }
{
    if source.suffix() != SOURCE_SUFFIX {
        return Err(NameFault::BadSuffix(source.copy()?));
    }
    only_path(state, bare(state, source)?)
}

/// The path of a source without its `.in`.
#[tactic(auto, unfolding(crate::specs::Writes::bare))]
fn bare(state: &Declarations, source: &PathText) -> Result<PathText, NameFault>
    ensures ok { IfOk result (λ p. spec.bare source.now ≡ Ok p) }
    ensures fault { IfErr result (λ e. e ≢ NameFault.Memory → spec.bare source.now ≡ Err e) }
{
    let path = without(source.as_str(), SOURCE_SUFFIX);
    Ok(PathText::read(state.alloc, path)?)
}

fn copies_of(state: &Declarations, pairs: &[(Text, Text)]) -> Result<Pairs, Memory>
    ensures { IfOk result (λ p. p ≡ pairs.now) }
{
    let mut copies = Listing::empty(state.alloc);
    for (key, value) in pairs {
        copies.push((key.copy()?, value.copy()?))?;
    }
    Ok(copies)
}
