//! The lines of a rule.
ghost use Rattle.std.specs.Prelude.{◌≡◌, ◌≢◌, ◌≤◌, ◌++◌, Ok, Err, drop, length, IfOk, IfErr, OnOk};
ghost use Rattle.scons_rules.specs.ActionsLeft.{texts_in};
ghost use Rattle.scons_rules.specs.Expanding.{expanding, command_of};
ghost use Rattle.scons_rules.specs.Lines.{is_mark, marks_len, line_of, lines_behind, with_command, lines_by};
ghost use Rattle.scons_rules.specs.Steps.{each};

use crate::fault::RuleReadFault;
use crate::one_rule::OneRule;
use env_subst::CommandLines;
use scons_base::{Listing, Memory, Text, Texts};
use std::alloc::Global;
use world_api::Line;

/// What a rule's lines say: for the shell, and in records.
#[derive(Drop)]
pub(crate) struct RuleLines {
    pub(crate) lines: Listing<Line>,
    pub(crate) signed: Texts,
}

/// The expanded lines of these texts.
pub(crate) fn lines_of(rule: &OneRule<'_>, texts: &[&str]) -> Result<RuleLines, RuleReadFault>
    ensures ok { IfOk result (λ l. lines_by (expanding rule.now) (texts_in texts.now) ≡ Ok l) }
    ensures fault { IfErr result (λ e. e ≢ RuleReadFault.Memory
        → lines_by (expanding rule.now) (texts_in texts.now) ≡ Err e) }
{
    let mut lines = RuleLines {
        lines: Listing::empty(rule.alloc),
        signed: Texts::new(Vec::new(rule.alloc)),
    };
    for text in texts {
        let command = rule.lines(text)?;
        add_command(rule.alloc, &mut lines, command)?;
    }
    Ok(lines)
}

fn add_command(alloc: Global, lines: &mut RuleLines, command: CommandLines) -> Result<(), Memory>
    ensures { OnOk result (lines.new ≡ with_command lines.old command) }
{
    let CommandLines { plain, signed } = command;
    add_signed(&mut lines.signed, signed)?;
    add_lines(alloc, &mut lines.lines, plain)
}

fn add_signed(signed: &mut Texts, more: Texts) -> Result<(), Memory>
    ensures { OnOk result (signed.new ≡ signed.old ++ more) }
{
    if signed.as_slice().is_empty() {
        *signed = more;
        return Ok(());
    }
    for line in more.into_vec() {
        signed.push(line)?;
    }
    Ok(())
}

/// Puts lines without their marks behind others.
fn add_lines(alloc: Global, lines: &mut Listing<Line>, more: Texts) -> Result<(), Memory>
    ensures { OnOk result (lines.new ≡ lines.old ++ lines_behind more) }
{
    for line in more.into_vec() {
        add_line(alloc, lines, line)?;
    }
    Ok(())
}

/// Puts a line without its marks behind others. An empty one is left out.
#[tactic(auto, unfolding(crate::specs::Lines::line_of))]
fn add_line(alloc: Global, lines: &mut Listing<Line>, text: Text) -> Result<(), Memory>
    ensures { OnOk result (lines.new ≡ lines.old ++ line_of text) }
{
    let bytes = text.as_str().as_bytes();
    let len = marks_len(bytes);
    if len == bytes.len() {
        return Ok(());
    }
    let quiet = bytes[..len].contains(&b'@');
    let ignore = bytes[..len].contains(&b'-');
    let bare = behind(alloc, text, len)?;
    lines.push(Line {
        text: bare,
        quiet,
        ignore,
    })
}

/// A text without so many bytes in front. Marks are characters of one byte, so it is cut between characters.
fn behind(alloc: Global, text: Text, len: usize) -> Result<Text, Memory>
    ensures { IfOk result (λ t. t ≡ drop len text) }
{
    if len == 0 {
        return Ok(text);
    }
    match text.as_str().split_at_checked(len) {
        Some((_, rest)) => Text::of(alloc, rest),
        None => Err(Memory),
    }
}

/// How many bytes the marks in front of a line take, and the white space among them.
fn marks_len(line: &[u8]) -> usize
    ensures len { result ≡ marks_len line.now }
    ensures within { result ≤ length line.now }
{
    for (place, byte) in line.iter().enumerate() {
        if !is_mark(*byte) {
            return place;
        }
    }
    line.len()
}

#[tactic(auto, unfolding(crate::specs::Lines::is_mark))]
fn is_mark(byte: u8) -> bool
    ensures { result ≡ is_mark byte }
{
    matches!(byte, b'@' | b'-' | b' ' | 9..=13)
}
