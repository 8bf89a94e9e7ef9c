//! What of Python a script hasn't.
ghost use Rattle.std.specs.Prelude.{◌≡◌};
ghost use Rattle.py_parse.specs.Outside as outside;

use crate::fault::Unsupported;
use crate::level::Level;
use crate::terminal::{Terminal, sees};
use py_token::{Keyword, Mark, Token, TokenKind};

/// What is refused behind an expression alone, if the first of these tokens begins it.
pub fn unsupported_behind(rest: &[Token]) -> Option<Unsupported>
    ensures { result ≡ outside.unsupported_behind rest.now }
{
    let (token, behind) = rest.split_first()?;
    if compares(&token.kind, behind) {
        return Some(Unsupported::Chain);
    }
    None
}

/// A comparison begins with this token, in front of those.
fn compares(kind: &TokenKind, rest: &[Token]) -> bool
    ensures { result ≡ outside.compares kind.now rest.now }
{
    match kind {
        TokenKind::Word(word) => word_compares(*word, rest),
        TokenKind::Mark(_) => Terminal::Comparison.fits(kind),
        _ => false,
    }
}

fn word_compares(word: Keyword, rest: &[Token]) -> bool
    ensures { result ≡ outside.word_compares word rest.now }
{
    match word {
        Keyword::In => true,
        Keyword::Is => true,
        Keyword::Not => sees(Terminal::Word(Keyword::In), rest),
        _ => false,
    }
}

/// What the first of the tokens `rest` begins or goes on with, behind those of `front`.
pub fn unsupported_at(front: &[Token], rest: &[Token]) -> Option<Unsupported>
    ensures { result ≡ outside.unsupported_at front.now rest.now }
{
    let (token, _) = rest.split_first()?;
    unsupported_here(front, &token.kind)
}

fn unsupported_here(front: &[Token], kind: &TokenKind) -> Option<Unsupported>
    ensures { result ≡ outside.unsupported_here front.now kind.now }
{
    if is_bad_right_side(front, kind) {
        return Some(Unsupported::Word(Keyword::Is));
    }
    if is_other_import(front, kind) {
        return Some(Unsupported::Word(Keyword::Import));
    }
    unsupported_token(kind)
}

fn is_bad_right_side(front: &[Token], kind: &TokenKind) -> bool
    ensures { result ≡ outside.is_bad_right_side front.now kind.now }
{
    (end_in_is(front) && begins_operand(kind))
        || (end_in_is_constant(front) && continues_operand(kind))
}

fn is_other_import(front: &[Token], kind: &TokenKind) -> bool
    ensures { result ≡ outside.is_other_import front.now kind.now }
{
    end_in_import(front) && (Terminal::Name.fits(kind) || Terminal::Mark(Mark::Dot).fits(kind))
}

fn end_in_is(front: &[Token]) -> bool
    ensures { result ≡ outside.end_in_is front.now }
{
    let is = Terminal::Word(Keyword::Is);
    let not = Terminal::Word(Keyword::Not);
    end_in(&[is], front) || end_in(&[is, not], front)
}

fn end_in_is_constant(front: &[Token]) -> bool
    ensures { result ≡ outside.end_in_is_constant front.now }
{
    let is = Terminal::Word(Keyword::Is);
    let not = Terminal::Word(Keyword::Not);
    end_in(&[is, Terminal::Constant], front) || end_in(&[is, not, Terminal::Constant], front)
}

fn end_in_import(front: &[Token]) -> bool
    ensures { result ≡ outside.end_in_import front.now }
{
    let from = Terminal::Word(Keyword::From);
    let dot = Terminal::Mark(Mark::Dot);
    let import = Terminal::Word(Keyword::Import);
    let (scons, script) = (Terminal::Scons, Terminal::Script);
    end_in(&[from], front)
        || end_in(&[from, scons], front)
        || end_in(&[from, scons, dot], front)
        || end_in(&[from, scons, dot, script], front)
        || end_in(&[from, scons, dot, script, import], front)
}

fn begins_operand(kind: &TokenKind) -> bool
    ensures { result ≡ outside.begins_operand kind.now }
{
    Terminal::Leaf.fits(kind)
        || Terminal::Piece.fits(kind)
        || Terminal::Mark(Mark::Minus).fits(kind)
        || Terminal::Bracket.fits(kind)
}

fn continues_operand(kind: &TokenKind) -> bool
    ensures { result ≡ outside.continues_operand kind.now }
{
    Terminal::Operator(Level::Sum).fits(kind)
        || Terminal::Operator(Level::Product).fits(kind)
        || Terminal::Link.fits(kind)
}

/// The last of these tokens are what is wanted.
fn end_in(wanted: &[Terminal], tokens: &[Token]) -> bool
    ensures { result ≡ outside.end_in wanted.now tokens.now }
{
    let others = tokens.len().saturating_sub(wanted.len());
    are(wanted, &tokens[others..])
}

/// These tokens are what is wanted, no more and no fewer.
fn are(wanted: &[Terminal], tokens: &[Token]) -> bool
    ensures { result ≡ outside.are wanted.now tokens.now }
{
    let mut rest = tokens;
    for terminal in wanted {
        let Some((token, after)) = rest.split_first() else {
            return false;
        };
        if !terminal.fits(&token.kind) {
            return false;
        }
        rest = after;
    }
    rest.is_empty()
}

fn unsupported_token(kind: &TokenKind) -> Option<Unsupported>
    ensures { result ≡ outside.unsupported_token kind.now }
{
    match kind {
        TokenKind::Word(word) => is_unsupported_word(*word).then_some(Unsupported::Word(*word)),
        TokenKind::Mark(mark) => is_unsupported_mark(*mark).then_some(Unsupported::Mark(*mark)),
        _ => None,
    }
}

fn is_unsupported_word(word: Keyword) -> bool
    ensures { result ≡ outside.unsupported_word word }
{
    match word {
        Keyword::As => true,
        Keyword::Assert => true,
        Keyword::Async => true,
        Keyword::Await => true,
        Keyword::Class => true,
        Keyword::Def => true,
        Keyword::Del => true,
        Keyword::Except => true,
        Keyword::Finally => true,
        Keyword::Global => true,
        Keyword::Import => true,
        Keyword::Lambda => true,
        Keyword::Nonlocal => true,
        Keyword::Raise => true,
        Keyword::Try => true,
        Keyword::With => true,
        Keyword::Yield => true,
        _ => false,
    }
}

fn is_unsupported_mark(mark: Mark) -> bool
    ensures { result ≡ outside.unsupported_mark mark }
{
    match mark {
        Mark::Slash => true,
        Mark::Power => true,
        Mark::At => true,
        Mark::Bar => true,
        Mark::Ampersand => true,
        Mark::Caret => true,
        Mark::Tilde => true,
        Mark::ShiftLeft => true,
        Mark::ShiftRight => true,
        Mark::Arrow => true,
        Mark::Walrus => true,
        _ => false,
    }
}
