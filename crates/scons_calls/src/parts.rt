//! The next argument of a call, as what its kind says.
ghost use Rattle.std.specs.Prelude.{◌≡◌};
ghost use Rattle.scons_calls.specs.Requests.{front, behind, text_in, nodes_in, texts_in, pairs_in, exports_in, flag_in, mode_in, value_in, place_in, place_for};

use crate::argument::Argument;
use crate::arguments::Arguments;
use crate::exports::Exports;
use crate::fault::CallFault;
use env_subst::Mode;
use py_heap::Value;
use scons_base::{Listing, Text, Texts};
use scons_decls::{Given, Nodes, Pairs};
use std::alloc::Global;

/// A text, empty where none is given.
pub fn text(alloc: Global, from: &mut Arguments) -> Text
    ensures is { result ≡ text_in (front from.old) }
    ensures rest { from.new ≡ behind from.old }
{
    match from.take() {
        Some(Argument::Text(text)) => text,
        _ => Text::new(String::new(alloc)),
    }
}

pub fn nodes(alloc: Global, from: &mut Arguments) -> Nodes
    ensures is { result ≡ nodes_in (front from.old) }
    ensures rest { from.new ≡ behind from.old }
{
    nodes_in(alloc, from.take())
}

pub fn nodes_in(alloc: Global, argument: Option<Argument>) -> Nodes
    ensures { result ≡ nodes_in argument }
{
    match argument {
        Some(Argument::Nodes(nodes)) => nodes,
        _ => Listing::empty(alloc),
    }
}

pub fn texts(alloc: Global, from: &mut Arguments) -> Texts
    ensures is { result ≡ texts_in (front from.old) }
    ensures rest { from.new ≡ behind from.old }
{
    match from.take() {
        Some(Argument::Texts(texts)) => texts,
        _ => Texts::new(Vec::new(alloc)),
    }
}

pub fn pairs(alloc: Global, from: &mut Arguments) -> Pairs
    ensures is { result ≡ pairs_in (front from.old) }
    ensures rest { from.new ≡ behind from.old }
{
    match from.take() {
        Some(Argument::Pairs(pairs)) => pairs,
        _ => Listing::empty(alloc),
    }
}

/// A place that must stand.
pub fn place(from: &mut Arguments) -> Result<Given, CallFault>
    ensures is { result ≡ place_for (front from.old) }
    ensures rest { from.new ≡ behind from.old }
{
    match from.take() {
        Some(Argument::Place(given)) => Ok(given),
        _ => Err(CallFault::Arguments),
    }
}

pub fn place_if(from: &mut Arguments) -> Option<Given>
    ensures is { result ≡ place_in (front from.old) }
    ensures rest { from.new ≡ behind from.old }
{
    match from.take() {
        Some(Argument::Place(given)) => Some(given),
        _ => None,
    }
}

pub fn exports(alloc: Global, from: &mut Arguments) -> Exports
    ensures is { result ≡ exports_in (front from.old) }
    ensures rest { from.new ≡ behind from.old }
{
    match from.take() {
        Some(Argument::Exports(exports)) => exports,
        _ => Exports::new(alloc),
    }
}

/// A flag, which is true where none is given.
pub fn flag(from: &mut Arguments) -> bool
    ensures is { result ≡ flag_in (front from.old) }
    ensures rest { from.new ≡ behind from.old }
{
    match from.take() {
        Some(Argument::Flag(flag)) => flag,
        _ => true,
    }
}

pub fn mode(from: &mut Arguments) -> Mode
    ensures is { result ≡ mode_in (front from.old) }
    ensures rest { from.new ≡ behind from.old }
{
    match from.take() {
        Some(Argument::Mode(mode)) => mode,
        _ => Mode::Text,
    }
}

pub fn any(from: &mut Arguments) -> Value
    ensures is { result ≡ value_in (front from.old) }
    ensures rest { from.new ≡ behind from.old }
{
    match from.take() {
        Some(Argument::Any(value)) => value,
        _ => Value::Nil,
    }
}
