//! Marks: operators and delimiters.
ghost use Rattle.std.specs.Prelude.{◌≡◌, ◌∷◌, [], IfSome};
ghost use Rattle.py_lex.specs.Marks.{mark_at};
ghost use Rattle.py_lex.specs.Sizes.{StandsAt};

use py_token::Mark;

/// The longest mark in front.
pub fn mark_at(bytes: &[u8]) -> Option<Mark>
    ensures mark { result ≡ mark_at bytes.now }
    ensures stands { IfSome result (λ m. StandsAt m bytes.now) }
{
    first_mark(bytes)
}

fn first_mark(bytes: &[u8]) -> Option<Mark>
    ensures { result ≡ mark_at bytes.now }
{
    match bytes {
        [first, second, ..] => mark_of_two(*first, *second),
        [only] => mark_of_one(*only),
        [] => None,
    }
}

/// The longest mark that two bytes begin with.
fn mark_of_two(first: u8, second: u8) -> Option<Mark>
    ensures { result ≡ mark_at (first ∷ second ∷ []) }
{
    match (first, second) {
        (b'+', b'=') => Some(Mark::PlusAssign),
        (b'-', b'=') => Some(Mark::MinusAssign),
        (b'*', b'=') => Some(Mark::StarAssign),
        (b'=', b'=') => Some(Mark::Equal),
        (b'!', b'=') => Some(Mark::NotEqual),
        (b'<', b'=') => Some(Mark::LessEqual),
        (b'>', b'=') => Some(Mark::GreaterEqual),
        (b'/', b'/') => Some(Mark::FloorDivide),
        (b'*', b'*') => Some(Mark::Power),
        (b'<', b'<') => Some(Mark::ShiftLeft),
        (b'>', b'>') => Some(Mark::ShiftRight),
        (b'-', b'>') => Some(Mark::Arrow),
        (b':', b'=') => Some(Mark::Walrus),
        _ => mark_of_one(first),
    }
}

/// The mark of a byte alone.
fn mark_of_one(byte: u8) -> Option<Mark>
    ensures { result ≡ mark_at (byte ∷ []) }
{
    match byte {
        b'(' => Some(Mark::OpenParen),
        b')' => Some(Mark::CloseParen),
        b'[' => Some(Mark::OpenBracket),
        b']' => Some(Mark::CloseBracket),
        b'{' => Some(Mark::OpenBrace),
        b'}' => Some(Mark::CloseBrace),
        b',' => Some(Mark::Comma),
        b':' => Some(Mark::Colon),
        b'.' => Some(Mark::Dot),
        b';' => Some(Mark::Semicolon),
        b'=' => Some(Mark::Assign),
        b'<' => Some(Mark::Less),
        b'>' => Some(Mark::Greater),
        b'+' => Some(Mark::Plus),
        b'-' => Some(Mark::Minus),
        b'*' => Some(Mark::Star),
        b'%' => Some(Mark::Percent),
        b'/' => Some(Mark::Slash),
        b'@' => Some(Mark::At),
        b'|' => Some(Mark::Bar),
        b'&' => Some(Mark::Ampersand),
        b'^' => Some(Mark::Caret),
        b'~' => Some(Mark::Tilde),
        _ => None,
    }
}
