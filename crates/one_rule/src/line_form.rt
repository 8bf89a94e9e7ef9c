//! The line form of a script.
ghost use Rattle.std.specs.Prelude.{◌≡◌, ◌≢◌, ◌==◌, ℕ, List, [], Some, None, IfOk, IfErr, IfSome, IfNone, MatchOption, IsTrue, option_map, map, ◌≤◌, length};
ghost use Rattle.std.specs.List.{list_all, slice_split, position_or_len};
ghost use Rattle.std.specs.Str.{IsAscii};
ghost use Rattle.scons_base.specs.Normal.{is_name};
ghost use Rattle.scons_base.specs.PathFaults.{fault_in};
ghost use Rattle.one_rule.specs.LineForm.{is_file_name, is_file_name_byte, is_command, is_command_byte, is_word, begins_as_command, quote, space, line_feed, Declares, DeclaresRule, IsFaultLine, first_line, behind_first_line};
ghost use Rattle.one_rule.specs.Fields.{fields_of, is_frame, are_well_formed, rule_fields};

use crate::rule::Rule;
use scons_base::limits::{COMMAND_LIMIT, FILE_NAME_LIMIT};
use scons_base::{Memory, PathFault, PathText, Text};
use std::alloc::Global;
use std::str;

/// Why a script isn't in the line form: the first line that isn't, or want of memory.
#[derive(Clone, Copy, Debug, PartialEq, Eq)]
pub enum LineFault {
    At(u32),
    Memory,
}

impl From<Memory> for LineFault {
    ghost use Rattle.one_rule.specs.declared.line_form.LineFault.TheVariants.{Memory};

    ghost from_gives = { λ _ e. e ≡ Memory };

    fn from(_: Memory) -> Self {
        LineFault::Memory
    }
}

/// Reads a script of the one line `Command('TARGET', 'SOURCE', 'LINE')`, whose line feed may be missing.
pub fn read_line_form(alloc: Global, script: &[u8]) -> Result<Rule, LineFault>
    ensures declared { IfOk result (λ rule. Declares script.now rule) }
    ensures fault { IfErr result (λ fault. (line : ℕ) → fault ≡ LineFault.At line → IsFaultLine script.now line) }
{
    let (first, rest) = cut_at_line_end(script);
    match read_rule_line(alloc, first)? {
        None => Err(LineFault::At(1)),
        Some(rule) => {
            if rest.is_empty() {
                Ok(rule)
            } else {
                Err(LineFault::At(2))
            }
        }
    }
}

/// The first line without its line feed, and what stands behind that.
fn cut_at_line_end(script: &[u8]) -> (&[u8], &[u8])
    ensures first { result.0.now ≡ first_line script.now }
    ensures rest { result.1.now ≡ behind_first_line script.now }
{
    let end = first_line_len(script);
    if end < script.len() {
        (&script[..end], &script[end + 1..])
    } else {
        (script, &script[end..])
    }
}

fn first_line_len(script: &[u8]) -> usize
    ensures length { result ≡ position_or_len (λ b. b == line_feed) script.now }
    ensures within { result ≤ length script.now }
{
    script.iter().take_while(|b| **b != b'\n').count()
}

fn read_rule_line(alloc: Global, line: &[u8]) -> Result<Option<Rule>, Memory>
    ensures declared { IfOk result (λ found. IfSome found (DeclaresRule line.now)) }
    ensures no_rule { IfOk result (λ found. IfNone found ((rule : Rule) → DeclaresRule line.now rule → ⊥)) }
{
    let Some(fields) = cut_at_quotes(alloc, line)? else {
        return Ok(None);
    };
    if !fields.are_well_formed() {
        return Ok(None);
    }
    Ok(Some(Rule {
        target: path_of(alloc, fields.target)?,
        source: path_of(alloc, fields.source)?,
        line: text_of(alloc, fields.line)?,
    }))
}

/// What stands between the quotes of a line.
#[derive(Clone, Copy)]
struct Fields<'a> {
    target: &'a [u8],
    source: &'a [u8],
    line: &'a [u8],
}

fn cut_at_quotes<'a>(alloc: Global, line: &'a [u8]) -> Result<Option<Fields<'a>>, Memory>
    ensures { IfOk result (λ found. option_map rule_fields found ≡ fields_of (slice_split (λ b. b == quote) line.now)) }
{
    let parts: Vec<&[u8]> = line.split(|b| *b == b'\'').collect(alloc)?;
    Ok(fields_between(parts.as_slice()))
}

fn fields_between<'a>(parts: &[&'a [u8]]) -> Option<Fields<'a>>
    ensures { option_map rule_fields result ≡ fields_of (map (λ part. part.now) parts.now) }
{
    let [opening, target, comma, source, second_comma, line, closing] = parts else {
        return None;
    };
    if is_frame(opening, comma, second_comma, closing) {
        Some(Fields {
            target: *target,
            source: *source,
            line: *line,
        })
    } else {
        None
    }
}

#[tactic(auto, unfolding(crate::specs::Fields::is_frame))]
fn is_frame(opening: &[u8], comma: &[u8], second_comma: &[u8], closing: &[u8]) -> bool
    ensures { result ≡ is_frame opening.now comma.now second_comma.now closing.now }
{
    opening == b"Command(".as_slice()
        && comma == b", ".as_slice()
        && second_comma == b", ".as_slice()
        && closing == b")".as_slice()
}

impl Fields<'_> {
    fn are_well_formed(&self) -> bool
        ensures { result ≡ are_well_formed self.now.target.now self.now.source.now self.now.line.now }
    {
        is_file_name(self.target)
            && is_file_name(self.source)
            && self.source != self.target
            && is_command(self.line)
    }
}

#[tactic(auto, unfolding(crate::specs::LineForm::is_file_name))]
fn is_file_name(name: &[u8]) -> bool
    ensures { result ≡ is_file_name name.now }
{
    name.len() <= FILE_NAME_LIMIT && has_file_name_bytes(name) && is_name(name)
}

fn has_file_name_bytes(name: &[u8]) -> bool
    ensures { result ≡ list_all is_file_name_byte name.now }
{
    name.iter().all(|b| is_file_name_byte(*b))
}

#[tactic(auto, unfolding(crate::specs::LineForm::is_file_name_byte))]
fn is_file_name_byte(b: u8) -> bool
    ensures { result ≡ is_file_name_byte b }
{
    matches!(b, b'a'..=b'z' | b'A'..=b'Z' | b'0'..=b'9' | b'_' | b'.')
}

/// Whether a part of a path names something.
fn is_name(part: &[u8]) -> bool
    ensures { result ≡ is_name part.now }
{
    !matches!(part, b"" | b"." | b"..")
}

#[tactic(auto, unfolding(crate::specs::LineForm::is_command))]
fn is_command(line: &[u8]) -> bool
    ensures { result ≡ is_command line.now }
{
    line.len() <= COMMAND_LIMIT
        && has_command_bytes(line)
        && begins_as_command(line)
        && has_single_spaces(line)
}

fn has_command_bytes(line: &[u8]) -> bool
    ensures { result ≡ list_all is_command_byte line.now }
{
    line.iter().all(|b| is_command_byte(*b))
}

#[tactic(auto, unfolding(crate::specs::LineForm::is_command_byte))]
fn is_command_byte(b: u8) -> bool
    ensures { result ≡ is_command_byte b }
{
    matches!(b, b' '..=b'~') && b != b'\\' && b != b'$'
}

#[tactic(auto, unfolding(crate::specs::LineForm::begins_as_command))]
fn begins_as_command(line: &[u8]) -> bool
    ensures { result ≡ begins_as_command line.now }
{
    match line {
        [] => false,
        [first, ..] => *first != b'@' && *first != b'-',
    }
}

fn has_single_spaces(line: &[u8]) -> bool
    ensures { result ≡ list_all is_word (slice_split (λ b. b == space) line.now) }
{
    line.split(|b| *b == b' ').all(|word| !word.is_empty())
}

fn path_of(alloc: Global, name: &[u8]) -> Result<PathText, Memory>
    requires { IsTrue (is_file_name name.now) }
    ensures { IfOk result (λ path. path ≡ name.now) }
{
    match PathText::read(alloc, ascii(name)) {
        Ok(path) => Ok(path),
        Err(fault) => match fault {
            PathFault::Memory => Err(Memory),
            _ => unreachable!(),
        },
    }
}

fn text_of(alloc: Global, line: &[u8]) -> Result<Text, Memory>
    requires { IsTrue (is_command line.now) }
    ensures { IfOk result (λ text. text ≡ line.now) }
{
    Text::of(alloc, ascii(line))
}

fn ascii(bytes: &[u8]) -> &str
    requires { IsAscii bytes.now }
    ensures { result.now ≡ bytes.now }
{
    match str::from_utf8(bytes) {
        Ok(text) => text,
        Err(_) => unreachable!(),
    }
}
