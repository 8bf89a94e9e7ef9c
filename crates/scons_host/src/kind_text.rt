//! How a fault of a script is told: the name of its kind, and what the kind keeps, after a space each.
ghost use Rattle.std.specs.Prelude.{◌≡◌, IfOk, string_bytes};
ghost use Rattle.std.specs.Fmt.{decimal};
ghost use Rattle.scons_host.specs.Kinds.{IsKindText, IsEvalText, named, two_rules_text, other_script_text, named_twice, mismatch_text, index_text, lex_text, parse_text, told_behind, value_text, value_kind_text, name_text, path_text, variant_text, subst_text};

use crate::end::{FirstRule, ReadKind};
use env_subst::SubstFault;
use py_heap::{Key, ValueFault, ValueKind};
use py_lex::LexKind;
use py_meaning::EvalKind;
use py_parse::ParseKind;
use scons_base::{Memory, PathFault, PathText, Text};
use scons_decls::NameFault;
use std::alloc::Global;
use variant_dirs::VariantFault;

type Told = Result<String, Memory>;

impl ReadKind {
    /// The name of the innermost kind, and each value that it keeps.
    pub fn text(&self, alloc: Global) -> Result<String, Memory>
        ensures { IfOk result (λ text. IsKindText self.now (string_bytes text)) }
    {
        match self {
            ReadKind::NoScript(path) => with_path(alloc, "NoScript", path),
            ReadKind::Lex(kind, told) => with_told(alloc, lex_name(*kind), told),
            ReadKind::Parse(kind, told) => parse_text(alloc, *kind, told),
            ReadKind::Eval(kind) => eval_text(alloc, kind),
            ReadKind::Name(fault) => name_text(alloc, fault),
            ReadKind::Key(name) => with_text(alloc, "Key", name),
            ReadKind::TwoRules(target, first) => two_rules(alloc, target, first),
        }
    }
}

/// The target, the line of its first rule, and the script of that where it is another one.
fn two_rules(alloc: Global, target: &PathText, first: &FirstRule) -> Told
    ensures { IfOk result (λ text. string_bytes text ≡ two_rules_text target.now first.now) }
{
    let target = target.as_str();
    match &first.script {
        None => with_place(alloc, "TwoRules", target, u64::from(first.line)),
        Some(script) => other_script(alloc, target, first.line, script.as_str()),
    }
}

fn other_script(alloc: Global, target: &str, line: u32, script: &str) -> Told
    ensures { IfOk result (λ text. string_bytes text ≡ other_script_text target.now line script.now) }
{
    Ok(format!(in alloc; "TwoRules {target} {line} {script}")?)
}

fn word(alloc: Global, name: &str) -> Told
    ensures { IfOk result (λ text. string_bytes text ≡ name.now) }
{
    Ok(String::from_str(alloc, name)?)
}

fn with(alloc: Global, name: &str, kept: &str) -> Told
    ensures { IfOk result (λ text. string_bytes text ≡ named name.now kept.now) }
{
    Ok(format!(in alloc; "{name} {kept}")?)
}

fn with_text(alloc: Global, name: &str, kept: &Text) -> Told
    ensures { IfOk result (λ text. string_bytes text ≡ named name.now kept.now) }
{
    with(alloc, name, kept.as_str())
}

fn with_path(alloc: Global, name: &str, kept: &PathText) -> Told
    ensures { IfOk result (λ text. string_bytes text ≡ named name.now kept.now) }
{
    with(alloc, name, kept.as_str())
}

fn with_number(alloc: Global, name: &str, kept: u64) -> Told
    ensures { IfOk result (λ text. string_bytes text ≡ named name.now (decimal kept)) }
{
    Ok(format!(in alloc; "{name} {kept}")?)
}

fn lex_name(kind: LexKind) -> &'static str
    ensures { result.now ≡ lex_text kind }
{
    match kind {
        LexKind::NotUtf8 => "NotUtf8",
        LexKind::Tab => "Tab",
        LexKind::Indent => "Indent",
        LexKind::Unclosed => "Unclosed",
        LexKind::BadNumber => "BadNumber",
        LexKind::BadEscape => "BadEscape",
        LexKind::BadByte => "BadByte",
        LexKind::BadField => "BadField",
        LexKind::TooLong => "TooLong",
    }
}

fn parse_text(alloc: Global, kind: ParseKind, told: &Text) -> Told
    ensures { IfOk result (λ text. string_bytes text ≡ told_behind (parse_text kind) told.now) }
{
    let kind = parse_kind(alloc, kind)?;
    with_told(alloc, kind.as_str(), told)
}

fn parse_kind(alloc: Global, kind: ParseKind) -> Told
    ensures { IfOk result (λ text. string_bytes text ≡ parse_text kind) }
{
    match kind {
        ParseKind::OutOfSubset(word) => with(alloc, "OutOfSubset", word.word()),
        ParseKind::TooDeep => word(alloc, "TooDeep"),
        ParseKind::Unexpected => word(alloc, "Unexpected"),
    }
}

/// What is told of the place of a fault, if anything, behind its kind.
fn with_told(alloc: Global, kind: &str, told: &Text) -> Told
    ensures { IfOk result (λ text. string_bytes text ≡ told_behind kind.now told.now) }
{
    match told.as_str() {
        "" => word(alloc, kind),
        told => with(alloc, kind, told),
    }
}

fn eval_text(alloc: Global, kind: &EvalKind) -> Told
    ensures { IfOk result (λ text. IsEvalText kind.now (string_bytes text)) }
{
    match kind {
        EvalKind::Name(name) => with_text(alloc, "Name", name),
        EvalKind::Value(fault) => value_text(alloc, fault),
        EvalKind::Args(called) => with(alloc, "Args", called.word()),
        EvalKind::NotCallable => word(alloc, "NotCallable"),
        EvalKind::Depth => word(alloc, "Depth"),
        EvalKind::Host => word(alloc, "Host"),
    }
}

fn value_text(alloc: Global, fault: &ValueFault) -> Told
    ensures { IfOk result (λ text. string_bytes text ≡ value_text fault.now) }
{
    match fault {
        ValueFault::Mismatch(first, second) => mismatch_text(alloc, *first, *second),
        ValueFault::Index(place, length) => index_text(alloc, *place, *length),
        ValueFault::Key(Key::Int(number)) => Ok(format!(in alloc; "Key {number}")?),
        ValueFault::Key(Key::Text(text)) => with_text(alloc, "Key", text),
        ValueFault::KeyKind(kind) => with(alloc, "Key", kind_name(*kind)),
        ValueFault::Overflow => word(alloc, "Overflow"),
        ValueFault::Zero => word(alloc, "Zero"),
        ValueFault::BadText => word(alloc, "BadText"),
        ValueFault::NoMethod => word(alloc, "NoMethod"),
        ValueFault::TooBig(size) => with_number(alloc, "TooBig", *size),
        ValueFault::Deep => word(alloc, "Deep"),
        ValueFault::Budget(used) => with_number(alloc, "Budget", *used),
        ValueFault::Memory => word(alloc, "Memory"),
    }
}

fn mismatch_text(alloc: Global, first: ValueKind, second: ValueKind) -> Told
    ensures { IfOk result (λ text. string_bytes text ≡ mismatch_text first second) }
{
    let first = kind_name(first);
    let second = kind_name(second);
    Ok(format!(in alloc; "Mismatch {first} {second}")?)
}

fn index_text(alloc: Global, place: i64, length: u64) -> Told
    ensures { IfOk result (λ text. string_bytes text ≡ index_text place length) }
{
    Ok(format!(in alloc; "Index {place} {length}")?)
}

fn kind_name(kind: ValueKind) -> &'static str
    ensures { result.now ≡ value_kind_text kind }
{
    match kind {
        ValueKind::Nil => "Nil",
        ValueKind::Bool => "Bool",
        ValueKind::Int => "Int",
        ValueKind::Text => "Text",
        ValueKind::List => "List",
        ValueKind::Tuple => "Tuple",
        ValueKind::Dict => "Dict",
        ValueKind::Func => "Func",
        ValueKind::Builtin => "Builtin",
        ValueKind::Object => "Object",
    }
}

fn name_text(alloc: Global, fault: &NameFault) -> Told
    ensures { IfOk result (λ text. string_bytes text ≡ name_text fault.now) }
{
    match fault {
        NameFault::BadArgument(name) => with_text(alloc, "BadArgument", name),
        NameFault::OutOfProfile(name) => with_text(alloc, "OutOfProfile", name),
        NameFault::UnknownBuilder(name) => with_text(alloc, "UnknownBuilder", name),
        NameFault::NoSource => word(alloc, "NoSource"),
        NameFault::BadSuffix(path) => with_path(alloc, "BadSuffix", path),
        NameFault::EmptyAction => word(alloc, "EmptyAction"),
        NameFault::NotExported(name) => with_text(alloc, "NotExported", name),
        NameFault::BadPath(fault) => path_text(alloc, fault),
        NameFault::ShellPath(path) => with_path(alloc, "BadPath", path),
        NameFault::NoRule(path) => with_path(alloc, "NoRule", path),
        NameFault::Variant(fault) => variant_text(alloc, fault),
        NameFault::Kinds(name) => with_text(alloc, "Kinds", name),
        NameFault::ScriptDepth => word(alloc, "ScriptDepth"),
        NameFault::TwoRules(path) => with_path(alloc, "TwoRules", path),
        NameFault::SelfSource(path) => with_path(alloc, "SelfSource", path),
        NameFault::Subst(fault) => subst_text(alloc, fault),
        NameFault::Memory => word(alloc, "Memory"),
    }
}

fn path_text(alloc: Global, fault: &PathFault) -> Told
    ensures { IfOk result (λ text. string_bytes text ≡ path_text fault.now) }
{
    match fault {
        PathFault::Empty => word(alloc, "Empty"),
        PathFault::BadByte(place) => with_number(alloc, "BadByte", *place as u64),
        PathFault::TooLong(length) => with_number(alloc, "TooLong", *length as u64),
        PathFault::NotNormal => word(alloc, "NotNormal"),
        PathFault::Memory => word(alloc, "Memory"),
    }
}

fn variant_text(alloc: Global, fault: &VariantFault) -> Told
    ensures { IfOk result (λ text. string_bytes text ≡ variant_text fault.now) }
{
    match fault {
        VariantFault::Nested => word(alloc, "Nested"),
        VariantFault::Twice => word(alloc, "Twice"),
        VariantFault::BadName(fault) => path_text(alloc, fault),
        VariantFault::Memory => word(alloc, "Memory"),
    }
}

fn subst_text(alloc: Global, fault: &SubstFault) -> Told
    ensures { IfOk result (λ text. string_bytes text ≡ subst_text fault.now) }
{
    match fault {
        SubstFault::BadBrace { name, at } => with_place(alloc, "BadBrace", name.as_str(), *at),
        SubstFault::BadAttr { name, at } => with_place(alloc, "BadAttr", name.as_str(), *at),
        SubstFault::Marks(piece) => with_number(alloc, "Marks", u64::from(*piece)),
        SubstFault::TooLong(length) => with_number(alloc, "TooLong", *length),
        SubstFault::TooMany(count) => with_number(alloc, "TooMany", *count),
        SubstFault::BadPath(fault) => path_text(alloc, fault),
        SubstFault::Memory => word(alloc, "Memory"),
    }
}

fn with_place(alloc: Global, name: &str, kept: &str, at: u64) -> Told
    ensures { IfOk result (λ text. string_bytes text ≡ named_twice name.now kept.now (decimal at)) }
{
    Ok(format!(in alloc; "{name} {kept} {at}")?)
}
