//! The prefixes and suffixes that builders put round a name.
ghost use Rattle.std.specs.Prelude.{◌≡◌, ◌≢◌, ◌++◌, ◌==◌, ◌&&◌, length, Ok, Err, IfOk, IfErr, OnOk, string_bytes};
ghost use Rattle.std.specs.Char.{is_ascii_digit};
ghost use Rattle.std.specs.List.{list_all};
ghost use Rattle.scons_base.specs.Parts.{name_of};
ghost use Rattle.scons_decls.specs.State.{declared_of};
ghost use Rattle.scons_declare.specs.Affixes as spec;

use env_subst::Mode;
use scons_base::{EnvId, PathText, Text, joined};
use scons_decls::{Declarations, NameFault};

/// What a builder puts in front of names and behind them.
#[derive(Drop)]
pub(crate) struct Affixes {
    pub(crate) prefix: Text,
    pub(crate) suffix: Text,
}

impl Affixes {
    /// Whether a name stays as it is.
    pub(crate) fn are_empty(&self) -> bool
        ensures { result ≡ (length self.now.prefix == 0 && length self.now.suffix == 0) }
    {
        self.prefix.as_str().is_empty() && self.suffix.as_str().is_empty()
    }
}

/// No prefix and no suffix.
pub(crate) fn plain(state: &Declarations) -> Result<Affixes, NameFault>
    ensures ok { IfOk result (λ a. a ≡ spec.plain) }
    ensures fault { IfErr result (λ e. e ≡ NameFault.Memory) }
{
    Ok(Affixes {
        prefix: Text::of(state.alloc, "")?,
        suffix: Text::of(state.alloc, "")?,
    })
}

/// The prefix and the suffix that two texts of an environment stand for.
#[tactic(auto, unfolding(crate::specs::Affixes::affixes))]
pub(crate) fn affixes_of(
    state: &Declarations,
    env: EnvId,
    prefix: &str,
    suffix: &str,
) -> Result<Affixes, NameFault>
    ensures ok { IfOk result (λ a. spec.affixes (declared_of state.now) env.0 prefix.now suffix.now ≡ Ok a) }
    ensures fault { IfErr result (λ e. e ≢ NameFault.Memory
        → spec.affixes (declared_of state.now) env.0 prefix.now suffix.now ≡ Err e) }
{
    Ok(Affixes {
        prefix: affix_of(state, env, prefix)?,
        suffix: affix_of(state, env, suffix)?,
    })
}

/// A `Command` has neither, so an empty text is common.
fn affix_of(state: &Declarations, env: EnvId, text: &str) -> Result<Text, NameFault>
    ensures ok { IfOk result (λ a. spec.affix (declared_of state.now) env.0 text.now ≡ Ok a) }
    ensures fault { IfErr result (λ e. e ≢ NameFault.Memory
        → spec.affix (declared_of state.now) env.0 text.now ≡ Err e) }
{
    if text.is_empty() {
        return Ok(Text::of(state.alloc, "")?);
    }
    Ok(state.envs.subst(env, text, &state.locals, Mode::Text)?)
}

/// A suffix as a builder was given it, with a dot where it begins with a letter.
pub(crate) fn dotted(state: &Declarations, suffix: &Text) -> Result<Text, NameFault>
    ensures ok { IfOk result (λ t. t ≡ spec.dotted suffix.now) }
    ensures fault { IfErr result (λ e. e ≡ NameFault.Memory) }
{
    let bytes = suffix.as_str().as_bytes();
    match bytes.first() {
        None | Some(b'.' | b'_' | b'$') => Ok(suffix.copy()?),
        Some(_) => {
            let mut text = String::from_str(state.alloc, ".")?;
            text.push_str(suffix.as_str())?;
            Ok(Text::new(text))
        }
    }
}

/// The path that a text names, with the prefix in front of its name and the suffix behind: the prefix where the name
/// doesn't have it, the suffix where the name has none.
pub(crate) fn affixed(
    state: &Declarations,
    path: &PathText,
    affixes: &Affixes,
) -> Result<PathText, NameFault>
    ensures ok { IfOk result (λ p. spec.affixed affixes.now path.now ≡ Ok p) }
    ensures fault { IfErr result (λ e. e ≢ NameFault.Memory → spec.affixed affixes.now path.now ≡ Err e) }
{
    let mut name = String::new(state.alloc);
    push_prefixed(&mut name, path.name(), affixes.prefix.as_str())?;
    name.push_str(suffix_for(path, affixes.suffix.as_str()))?;
    path_in(state, path.dir(), name.as_str())
}

/// The suffix that a name gets: none where it has one.
fn suffix_for<'a>(path: &PathText, suffix: &'a str) -> &'a str
    ensures { result.now ≡ spec.with_suffix suffix.now (spec.counted_suffix path.now) (name_of path.now) }
{
    let name = path.name().as_bytes();
    if counted_suffix(path).is_empty() && !name.ends_with(suffix.as_bytes()) {
        suffix
    } else {
        ""
    }
}

/// A name, with the prefix in front where it doesn't have it.
fn push_prefixed(text: &mut String, name: &str, prefix: &str) -> Result<(), NameFault>
    ensures ok { OnOk result (string_bytes text.new ≡ string_bytes text.old ++ spec.with_prefix prefix.now name.now) }
    ensures fault { IfErr result (λ e. e ≡ NameFault.Memory) }
{
    if name == prefix || !name.as_bytes().starts_with(prefix.as_bytes()) {
        text.push_str(prefix)?;
    }
    text.push_str(name)?;
    Ok(())
}

/// The path of a name in a directory.
pub(crate) fn path_in(state: &Declarations, dir: &str, name: &str) -> Result<PathText, NameFault>
    ensures ok { IfOk result (λ p. spec.path_in dir.now name.now ≡ Ok p) }
    ensures fault { IfErr result (λ e. e ≢ NameFault.Memory → spec.path_in dir.now name.now ≡ Err e) }
{
    let text = joined(state.alloc, dir, name)?;
    Ok(PathText::read(state.alloc, text.as_str())?)
}

/// The target that a source has where none was named: prefix, the name without `known` or its suffix, and suffix.
#[tactic(auto, unfolding(crate::specs::Affixes::target_of))]
pub(crate) fn target_of(
    state: &Declarations,
    source: &PathText,
    known: &str,
    affixes: &Affixes,
) -> Result<PathText, NameFault>
    ensures ok { IfOk result (λ p. spec.target_of known.now affixes.now source.now ≡ Ok p) }
    ensures fault { IfErr result (λ e. e ≢ NameFault.Memory → spec.target_of known.now affixes.now source.now ≡ Err e) }
{
    let mut name = String::new(state.alloc);
    name.push_str(affixes.prefix.as_str())?;
    name.push_str(bare_name(source, known))?;
    name.push_str(affixes.suffix.as_str())?;
    path_in(state, source.dir(), name.as_str())
}

fn bare_name<'a>(source: &'a PathText, known: &str) -> &'a str
    ensures { result.now ≡ spec.bare_by known.now (spec.counted_suffix source.now) (name_of source.now) }
{
    let name = source.name();
    if is_behind(name, known) {
        without(name, known)
    } else {
        without(name, counted_suffix(source))
    }
}

/// Whether a text that isn't empty stands behind something in a name.
fn is_behind(name: &str, known: &str) -> bool
    ensures { result ≡ spec.is_behind known.now name.now }
{
    !known.is_empty() && name.len() != known.len() && name.as_bytes().ends_with(known.as_bytes())
}

/// A name without a suffix, where it ends with it.
pub(crate) fn without<'a>(name: &'a str, suffix: &str) -> &'a str
    ensures { result.now ≡ spec.without suffix.now name.now }
{
    match name.strip_suffix(suffix) {
        Some(bare) => bare,
        None => name,
    }
}

/// The suffix of a name as builders see it: one of digits alone is a part of the name, as of `lua5.4`.
fn counted_suffix(path: &PathText) -> &str
    ensures { result.now ≡ spec.counted_suffix path.now }
{
    let suffix = path.suffix();
    if is_number(suffix) { "" } else { suffix }
}

/// Whether a suffix is a dot and digits.
fn is_number(suffix: &str) -> bool
    ensures { result ≡ spec.is_number suffix.now }
{
    match suffix.as_bytes() {
        [b'.', digits @ ..] => are_digits(digits),
        _ => false,
    }
}

/// Whether these bytes are digits, of which there is one.
fn are_digits(bytes: &[u8]) -> bool
    ensures { result ≡ spec.are_digits bytes.now }
{
    !bytes.is_empty() && each_is_digit(bytes)
}

fn each_is_digit(bytes: &[u8]) -> bool
    ensures { result ≡ list_all is_ascii_digit bytes.now }
{
    bytes.iter().all(|byte| byte.is_ascii_digit())
}
