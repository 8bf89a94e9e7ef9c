//! How a reading ends that gives no graph.
use py_lex::LexKind;
use py_meaning::EvalKind;
use py_parse::ParseKind;
use rule_graph::What;
use scons_base::{Memory as NoMemory, PathText, Text};
use scons_decls::NameFault;

/// Why a script isn't read.
#[derive(Drop)]
pub enum ReadKind {
    /// There is no script at this path.
    NoScript(PathText),
    /// It has no tokens. The text is what is told of the place.
    Lex(LexKind, Text),
    /// Its tokens are no script. The text is what is told of the first that doesn't fit.
    Parse(ParseKind, Text),
    Eval(EvalKind),
    Name(NameFault),
    /// An environment has no variable or builder of this name.
    Key(Text),
    /// The target has another rule, which this place declares.
    TwoRules(PathText, FirstRule),
}

/// Where a target's first rule is declared: on this line of the same script, or of another one.
#[derive(Drop)]
pub struct FirstRule {
    pub line: u32,
    pub script: Option<PathText>,
}

/// Why there is no graph.
#[derive(Drop)]
pub enum HostEnd {
    /// A fault of this script on this line.
    Reading(PathText, u32, ReadKind),
    /// The file tree refused.
    Tree(PathText),
    /// The sink refused.
    Out,
    /// A script has so many bytes, more than it may.
    TooLarge(PathText, u64),
    TooMany(What, u64),
    Memory,
}

impl From<NoMemory> for HostEnd {
    ghost use Rattle.std.specs.Prelude.{◌≡◌};
    ghost use Rattle.scons_host.specs.declared.end.HostEnd.TheVariants as end;

    ghost from_gives = { λ _ e. e ≡ end.Memory };

    fn from(_: NoMemory) -> Self {
        HostEnd::Memory
    }
}
