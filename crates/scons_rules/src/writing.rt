//! What a rule that writes signs: the text, or how it is made of the rule's sources.
ghost use Rattle.std.specs.Prelude.{◌≡◌, ◌≢◌, ◌++◌, ◌∷◌, [], Ok, Err, Some, IfOk, IfErr, OnOk, codes, map};
ghost use Rattle.scons_rules.specs.Expanding.{expanding};
ghost use Rattle.world_api.specs.Writing.{bytes_of};
ghost use Rattle.scons_rules.specs.Writes.{joining, made_of, substituting, written};

use crate::fault::RuleReadFault;
use crate::one_rule::OneRule;
use scons_base::limits::FILE_LIMIT;
use scons_base::{Blob, Memory, Text, Texts};
use std::alloc::Global;
use text_files::write_bytes;
use world_api::Content;

/// What stands between the texts of a Textfile, and between the sources of a Substfile.
const BETWEEN: &str = "\n";

/// What a Substfile of so many sources signs: their number, what stands between them, and each key with its value.
pub(crate) fn substituting(
    rule: &OneRule<'_>,
    sources: usize,
    pairs: &[(Text, Text)],
) -> Result<Texts, RuleReadFault>
    ensures ok { IfOk result (λ t. substituting (expanding rule.now) sources pairs.now ≡ Ok t) }
    ensures fault { IfErr result (λ e. e ≢ RuleReadFault.Memory
        → substituting (expanding rule.now) sources pairs.now ≡ Err e) }
{
    let mut signed = joining(rule.alloc, sources)?;
    for (key, value) in pairs {
        let value = rule.text(value.as_str())?;
        push_pair(&mut signed, key, value)?;
    }
    Ok(signed)
}

/// How so many sources are joined.
fn joining(alloc: Global, sources: usize) -> Result<Texts, Memory>
    ensures { IfOk result (λ t. t ≡ joining sources) }
{
    let mut signed = Texts::new(Vec::new(alloc));
    signed.push(Text::new(format!(in alloc; "{sources}")?))?;
    signed.push(Text::of(alloc, BETWEEN)?)?;
    Ok(signed)
}

fn push_pair(signed: &mut Texts, key: &Text, value: Text) -> Result<(), Memory>
    ensures { OnOk result (signed.new ≡ signed.old ++ key.now ∷ value ∷ []) }
{
    signed.push(key.copy()?)?;
    signed.push(value)
}

/// What a Textfile signs: what a write makes of its texts in the place of files.
pub(crate) fn written(
    rule: &OneRule<'_>,
    texts: &[Text],
    pairs: &[(Text, Text)],
) -> Result<Texts, RuleReadFault>
    ensures ok { IfOk result (λ t. written (expanding rule.now) texts.now pairs.now ≡ Ok t) }
    ensures fault { IfErr result (λ e. e ≢ RuleReadFault.Memory
        → written (expanding rule.now) texts.now pairs.now ≡ Err e) }
{
    let signed = substituting(rule, texts.len(), pairs)?;
    let text = text_of(rule.alloc, made_of(rule.alloc, texts, &signed)?)?;
    Ok(one_text(rule.alloc, text)?)
}

/// What a write makes of texts in the place of files.
fn made_of(alloc: Global, texts: &[Text], signed: &Texts) -> Result<Content, RuleReadFault>
    ensures ok { IfOk result (λ c. made_of signed.now texts.now ≡ Ok c) }
    ensures fault { IfErr result (λ e. e ≢ RuleReadFault.Memory → made_of signed.now texts.now ≡ Err e) }
{
    let given = contents_of(alloc, texts)?;
    Ok(write_bytes(alloc, signed.as_slice(), given.as_slice(), FILE_LIMIT)?)
}

fn contents_of(alloc: Global, texts: &[Text]) -> Result<Vec<Content>, Memory>
    ensures { IfOk result (λ v. v.items ≡ map Some texts.now) }
{
    let mut contents = Vec::new(alloc);
    for text in texts {
        contents.push(Some(Blob::of(alloc, text.as_str().as_bytes())?))?;
    }
    Ok(contents)
}

/// A content that is made of texts is a text.
fn text_of(alloc: Global, content: Content) -> Result<Text, Memory>
    ensures { IfOk result (λ t. t ≡ bytes_of content) }
{
    let Some(bytes) = content else {
        return Text::of(alloc, "");
    };
    match String::from_utf8(bytes.into_vec()) {
        Ok(text) => Ok(Text::new(text)),
        Err(_) => Err(Memory),
    }
}

fn one_text(alloc: Global, text: Text) -> Result<Texts, Memory>
    ensures { IfOk result (λ t. t ≡ text ∷ []) }
{
    let mut texts = Texts::new(Vec::new(alloc));
    texts.push(text)?;
    Ok(texts)
}
