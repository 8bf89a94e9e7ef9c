//! What a call exports.
ghost use Rattle.std.specs.Prelude.{◌≡◌, ◌≢◌, Ok, Err, IfOk, IfErr, OnOk};
ghost use Rattle.scons_calls.specs.Kinds.{no_exports, identifier_by, exported_pair, exported_one, exports_by, pairs_in};
ghost use Rattle.scons_calls.specs.Requests.{named_one, named_all};
ghost use Rattle.scons_calls.specs.Results.{along};

use crate::fault::CallFault;
use crate::flattening::flattened;
use crate::pairs::pair_at;
use crate::texts::push_names;
use crate::variables::is_identifier;
use py_heap::{DictId, Heap, Value};
use py_host::Scope;
use scons_base::{Memory, Text, Texts};
use std::alloc::Global;

/// Names whose values are looked up where the call stands, and names with their values.
#[derive(Drop)]
pub struct Exports {
    pub names: Texts,
    pub values: Scope,
}

impl Exports {
    /// Nothing is exported.
    pub(crate) fn new(alloc: Global) -> Exports
        ensures { result ≡ no_exports }
    {
        Exports {
            names: Texts::new(Vec::new(alloc)),
            values: Scope::new(alloc),
        }
    }
}

/// Names, cut at white space, and dicts of names and values, flattened.
#[tactic(auto, using(crate::proofs::Tails::tails))]
pub fn exports_of(heap: &Heap, values: &[Value]) -> Result<Exports, CallFault>
    ensures ok { IfOk result (λ exports. exports_by heap.now values.now ≡ Ok exports) }
    ensures fault { IfErr result (λ e. e ≢ CallFault.Memory → exports_by heap.now values.now ≡ Err e) }
{
    let items = flattened(heap, values)?;
    exports_in(heap, items.as_slice())
}

#[tactic(auto, using(crate::proofs::Loops::loops))]
fn exports_in(heap: &Heap, items: &[Value]) -> Result<Exports, CallFault>
    ensures ok { IfOk result (λ exports. along (exported_one heap.now) no_exports items.now ≡ Ok exports) }
    ensures fault { IfErr result (λ e. e ≢ CallFault.Memory →
        along (exported_one heap.now) no_exports items.now ≡ Err e) }
{
    let mut exports = Exports::new(heap.allocator());
    for item in items {
        export(heap, &mut exports, *item)?;
    }
    Ok(exports)
}

/// Puts what an item exports behind what is there.
fn export(heap: &Heap, exports: &mut Exports, item: Value) -> Result<(), CallFault>
    ensures ok { OnOk result (exported_one heap.now exports.old item ≡ Ok exports.new) }
    ensures fault { IfErr result (λ e. e ≢ CallFault.Memory → exported_one heap.now exports.old item ≡ Err e) }
{
    match item {
        Value::Dict(dict) => put_pairs(heap, dict, &mut exports.values),
        item => push_names(heap, item, &mut exports.names),
    }
}

/// Puts the pairs of a dict into a scope.
#[tactic(auto, using(crate::proofs::Loops::loops))]
fn put_pairs(heap: &Heap, dict: DictId, scope: &mut Scope) -> Result<(), CallFault>
    ensures ok { OnOk result (along (exported_pair heap.now) scope.old (pairs_in heap.now dict.0) ≡ Ok scope.new) }
    ensures fault { IfErr result (λ e. e ≢ CallFault.Memory →
        along (exported_pair heap.now) scope.old (pairs_in heap.now dict.0) ≡ Err e) }
{
    'pairs: for place in 0..heap.dict_len(dict) {
        if let Some((key, value)) = pair_at(heap, dict, place) {
            scope.set(identifier(heap, key)?, value)?;
        }
    }
    Ok(())
}

/// The name that a key of a dict is.
fn identifier(heap: &Heap, key: Value) -> Result<Text, CallFault>
    ensures ok { IfOk result (λ name. identifier_by heap.now key ≡ Ok name) }
    ensures fault { IfErr result (λ e. e ≢ CallFault.Memory → identifier_by heap.now key ≡ Err e) }
{
    let Some(name) = heap.text_of(key) else {
        return Err(CallFault::Arguments);
    };
    if !is_identifier(name) {
        return Err(CallFault::Arguments);
    }
    Ok(Text::of(heap.allocator(), name)?)
}

/// Puts the named arguments of Export into a scope.
#[tactic(auto, using(crate::proofs::Loops::loops))]
pub fn put_named(alloc: Global, values: &mut Scope, named: &Scope) -> Result<(), Memory>
    ensures { OnOk result (values.new ≡ named_all values.old named.now) }
{
    'names: for at in 0..named.len() {
        if let Some((name, value)) = named.at(at) {
            put_one(alloc, values, name, value)?;
        }
    }
    Ok(())
}

fn put_one(alloc: Global, values: &mut Scope, name: &str, value: Value) -> Result<(), Memory>
    ensures { OnOk result (values.new ≡ named_one values.old (name.now, value)) }
{
    if name == "names" {
        return Ok(());
    }
    values.set(Text::of(alloc, name)?, value)
}
