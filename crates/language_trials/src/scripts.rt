//! What the parts of the table have in common: texts as scripts, and how faults are told.
use py_eval::EvalKind;
use py_heap::{Key, ValueFault};
use py_lex::lex;
use py_parse::parse;
use py_tree::Script;
use std::alloc::Global;
use trial_text::Told;

/// The tree of a text; none where it is no script.
pub fn script_of(alloc: Global, text: &str) -> Option<Script> {
    let tokens = lex(alloc, text.as_bytes()).ok()?;
    parse(alloc, &tokens).ok()
}

/// Why a script ends.
pub fn put_kind(told: &mut Told, kind: &EvalKind) {
    match kind {
        EvalKind::Name(name) => told.put_all(&["Name ", name.as_str()]),
        EvalKind::Value(fault) => put_fault(told, fault),
        EvalKind::Args(called) => told.put_all(&["Args ", called.word()]),
        other => told.show(format_args!("{other:?}")),
    }
}

fn put_fault(told: &mut Told, fault: &ValueFault) {
    match fault {
        ValueFault::Key(Key::Int(number)) => told.show(format_args!("Key {number}")),
        ValueFault::Key(Key::Text(text)) => told.put_all(&["Key ", text.as_str()]),
        ValueFault::KeyKind(kind) => told.show(format_args!("Key {kind:?}")),
        other => told.show(format_args!("{other:?}")),
    }
}
