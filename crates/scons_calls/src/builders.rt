//! Arguments that stand for builders.
ghost use Rattle.std.specs.Prelude.{◌≡◌, ◌≢◌, Ok, Err, IfOk, IfErr, OnOk};
ghost use Rattle.scons_calls.specs.Kinds.{pairs_in};
ghost use Rattle.scons_calls.specs.Results.{and_one, each};
ghost use Rattle.scons_calls.specs.Variables.{builder_by, builder_pair, builders_by, builders_fault};

use crate::fault::CallFault;
use crate::objects::Objects;
use crate::pairs::pair_at;
use crate::texts::text;
use crate::thing::Thing;
use py_heap::{DictId, Heap, Value};
use scons_base::{Listing, Text};

/// The builders of a dict of builders.
pub fn builders(
    heap: &Heap,
    objects: &Objects,
    value: Value,
) -> Result<Listing<(Text, u32)>, CallFault>
    ensures ok { IfOk result (λ builders. builders_by heap.now objects.now value ≡ Ok builders) }
    ensures fault { IfErr result (λ e. e ≢ CallFault.Memory → builders_by heap.now objects.now value ≡ Err e) }
{
    match value {
        Value::Dict(dict) => builders_in(heap, objects, dict),
        _ => Err(left_out(heap)),
    }
}

#[tactic(auto, using(crate::proofs::Loops::loops))]
fn builders_in(
    heap: &Heap,
    objects: &Objects,
    dict: DictId,
) -> Result<Listing<(Text, u32)>, CallFault>
    ensures ok { IfOk result (λ builders.
        each (builder_pair heap.now objects.now) (pairs_in heap.now dict.0) ≡ Ok builders) }
    ensures fault { IfErr result (λ e. e ≢ CallFault.Memory →
        each (builder_pair heap.now objects.now) (pairs_in heap.now dict.0) ≡ Err e) }
{
    let mut builders = Listing::empty(heap.allocator());
    'pairs: for at in 0..heap.dict_len(dict) {
        if let Some(pair) = pair_at(heap, dict, at) {
            push_named(heap, objects, &mut builders, pair)?;
        }
    }
    Ok(builders)
}

/// Puts a builder and its name behind others.
fn push_named(
    heap: &Heap,
    objects: &Objects,
    builders: &mut Listing<(Text, u32)>,
    pair: (Value, Value),
) -> Result<(), CallFault>
    ensures ok { OnOk result (and_one builders.old (builder_pair heap.now objects.now pair) ≡ Ok builders.new) }
    ensures fault { IfErr result (λ e. e ≢ CallFault.Memory →
        and_one builders.old (builder_pair heap.now objects.now pair) ≡ Err e) }
{
    Ok(builders.push(named(heap, objects, pair)?)?)
}

/// A builder and its name.
fn named(heap: &Heap, objects: &Objects, pair: (Value, Value)) -> Result<(Text, u32), CallFault>
    ensures ok { IfOk result (λ p. builder_pair heap.now objects.now pair ≡ Ok p) }
    ensures fault { IfErr result (λ e. e ≢ CallFault.Memory → builder_pair heap.now objects.now pair ≡ Err e) }
{
    let name = text(heap, pair.0)?;
    let number = builder(heap, objects, pair.1)?;
    Ok((name, number))
}

/// The number of a builder.
pub fn builder(heap: &Heap, objects: &Objects, value: Value) -> Result<u32, CallFault>
    ensures ok { IfOk result (λ number. builder_by heap.now objects.now value ≡ Ok number) }
    ensures fault { IfErr result (λ e. e ≢ CallFault.Memory → builder_by heap.now objects.now value ≡ Err e) }
{
    match value {
        Value::Object(id) => match objects.thing(id) {
            Some(Thing::Builder(number)) => Ok(*number),
            _ => Err(left_out(heap)),
        },
        _ => Err(left_out(heap)),
    }
}

/// The fault where no builder stands.
fn left_out(heap: &Heap) -> CallFault
    ensures { result ≢ CallFault.Memory → result ≡ builders_fault }
{
    match Text::of(heap.allocator(), "BUILDERS") {
        Ok(name) => CallFault::LeftOut(name),
        Err(_) => CallFault::Memory,
    }
}
