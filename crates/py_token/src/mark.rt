//! The marks of Python 3: operators and delimiters.
ghost use Rattle.std.specs.Prelude.{◌≡◌};
ghost use Rattle.py_token.specs.Marks.{mark_text};

/// Operators and delimiters. Those from `Slash` on belong to Python and to no script of the subset: they are tokens
/// that the parser refuses.
#[derive(Clone, Copy, Debug, PartialEq, Eq)]
pub enum Mark {
    OpenParen,
    CloseParen,
    OpenBracket,
    CloseBracket,
    OpenBrace,
    CloseBrace,
    Comma,
    Colon,
    Dot,
    Semicolon,
    Assign,
    PlusAssign,
    MinusAssign,
    StarAssign,
    Equal,
    NotEqual,
    Less,
    LessEqual,
    Greater,
    GreaterEqual,
    Plus,
    Minus,
    Star,
    FloorDivide,
    Percent,
    Slash,
    Power,
    At,
    Bar,
    Ampersand,
    Caret,
    Tilde,
    ShiftLeft,
    ShiftRight,
    Arrow,
    Walrus,
}

impl Mark {
    pub fn text(self) -> &'static str
        ensures { result.now ≡ mark_text self }
    {
        match self {
            Mark::OpenParen => "(",
            Mark::CloseParen => ")",
            Mark::OpenBracket => "[",
            Mark::CloseBracket => "]",
            Mark::OpenBrace => "{",
            Mark::CloseBrace => "}",
            Mark::Comma => ",",
            Mark::Colon => ":",
            Mark::Dot => ".",
            Mark::Semicolon => ";",
            Mark::Assign => "=",
            Mark::PlusAssign => "+=",
            Mark::MinusAssign => "-=",
            Mark::StarAssign => "*=",
            Mark::Equal => "==",
            Mark::NotEqual => "!=",
            Mark::Less => "<",
            Mark::LessEqual => "<=",
            Mark::Greater => ">",
            Mark::GreaterEqual => ">=",
            Mark::Plus => "+",
            Mark::Minus => "-",
            Mark::Star => "*",
            Mark::FloorDivide => "//",
            Mark::Percent => "%",
            Mark::Slash => "/",
            Mark::Power => "**",
            Mark::At => "@",
            Mark::Bar => "|",
            Mark::Ampersand => "&",
            Mark::Caret => "^",
            Mark::Tilde => "~",
            Mark::ShiftLeft => "<<",
            Mark::ShiftRight => ">>",
            Mark::Arrow => "->",
            Mark::Walrus => ":=",
        }
    }
}
