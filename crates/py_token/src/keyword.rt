//! The keywords of Python 3.
ghost use Rattle.std.specs.Prelude.{◌≡◌, Some};
ghost use Rattle.py_token.specs.Keywords.{word_of, keyword_of};

/// The keywords of Python 3.
#[derive(Clone, Copy, Debug, PartialEq, Eq)]
pub enum Keyword {
    FalseValue,
    NoneValue,
    TrueValue,
    And,
    As,
    Assert,
    Async,
    Await,
    Break,
    Class,
    Continue,
    Def,
    Del,
    Elif,
    Else,
    Except,
    Finally,
    For,
    From,
    Global,
    If,
    Import,
    In,
    Is,
    Lambda,
    Nonlocal,
    Not,
    Or,
    Pass,
    Raise,
    Return,
    Try,
    While,
    With,
    Yield,
}

const KEYWORDS: [Keyword; 35] = [
    Keyword::FalseValue,
    Keyword::NoneValue,
    Keyword::TrueValue,
    Keyword::And,
    Keyword::As,
    Keyword::Assert,
    Keyword::Async,
    Keyword::Await,
    Keyword::Break,
    Keyword::Class,
    Keyword::Continue,
    Keyword::Def,
    Keyword::Del,
    Keyword::Elif,
    Keyword::Else,
    Keyword::Except,
    Keyword::Finally,
    Keyword::For,
    Keyword::From,
    Keyword::Global,
    Keyword::If,
    Keyword::Import,
    Keyword::In,
    Keyword::Is,
    Keyword::Lambda,
    Keyword::Nonlocal,
    Keyword::Not,
    Keyword::Or,
    Keyword::Pass,
    Keyword::Raise,
    Keyword::Return,
    Keyword::Try,
    Keyword::While,
    Keyword::With,
    Keyword::Yield,
];

impl Keyword {
    pub fn word(self) -> &'static str
        ensures word { result.now ≡ word_of self }
        ensures back { keyword_of (word_of self) ≡ Some self }
    {
        match self {
            Keyword::FalseValue => "False",
            Keyword::NoneValue => "None",
            Keyword::TrueValue => "True",
            Keyword::And => "and",
            Keyword::As => "as",
            Keyword::Assert => "assert",
            Keyword::Async => "async",
            Keyword::Await => "await",
            Keyword::Break => "break",
            Keyword::Class => "class",
            Keyword::Continue => "continue",
            Keyword::Def => "def",
            Keyword::Del => "del",
            Keyword::Elif => "elif",
            Keyword::Else => "else",
            Keyword::Except => "except",
            Keyword::Finally => "finally",
            Keyword::For => "for",
            Keyword::From => "from",
            Keyword::Global => "global",
            Keyword::If => "if",
            Keyword::Import => "import",
            Keyword::In => "in",
            Keyword::Is => "is",
            Keyword::Lambda => "lambda",
            Keyword::Nonlocal => "nonlocal",
            Keyword::Not => "not",
            Keyword::Or => "or",
            Keyword::Pass => "pass",
            Keyword::Raise => "raise",
            Keyword::Return => "return",
            Keyword::Try => "try",
            Keyword::While => "while",
            Keyword::With => "with",
            Keyword::Yield => "yield",
        }
    }

    /// The keyword that is spelled so.
    pub fn of(name: &[u8]) -> Option<Keyword>
        ensures { result ≡ keyword_of name.now }
    {
        KEYWORDS
            .iter()
            .copied()
            .find(|keyword| keyword.word().as_bytes() == name)
    }
}
