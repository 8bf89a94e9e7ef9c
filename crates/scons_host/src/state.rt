//! What a reading has so far.
ghost use Rattle.std.specs.Prelude.{◌≡◌, ◌≢◌, Ok, Err, IfOk, IfErr, codes};
ghost use Rattle.scons_decls.specs.State.{declared_of};
ghost use Rattle.scons_host.specs.Asked.{name_in};
ghost use Rattle.scons_host.specs.Lookups.{script_at};
ghost use Rattle.scons_host.specs.SoFar.{so_far};
ghost use Rattle.scons_host.specs.Starting as spec;

use crate::open::OpenCall;
use crate::stop::Refusal;
use env_subst::Locals;
use py_heap::{Heap, Value, ValueFault};
use py_host::Scope;
use scons_base::{Memory, PathText, Paths, Text};
use scons_calls::Objects;
use scons_decls::Declarations;
use scons_words::Words;
use std::alloc::Global;
use std::collections::VecDeque;
use variant_dirs::Variants;

#[derive(Drop)]
pub struct State {
    pub objects: Objects,
    pub declared: Declarations,
    /// The dict of the arguments of the command line.
    pub arguments: Value,
    /// What scripts have exported to all others.
    pub exports: Scope,
    /// The calls of SConscript that wait for a script, the innermost last.
    pub open: Vec<OpenCall>,
    /// The scripts that have begun, by their numbers.
    pub scripts: Paths,
    /// The first scripts that are still to be read.
    pub first: VecDeque<PathText>,
    pub top: PathText,
    pub alloc: Global,
}

impl State {
    /// The state as the first script begins.
    pub fn new(
        alloc: Global,
        heap: &mut Heap,
        top: PathText,
        words: &Words,
    ) -> Result<State, Refusal>
        ensures locals { IfOk result (λ s. spec.AreFirst top s.declared.locals) }
        ensures state { IfOk result (λ s. so_far s ≡ spec.unread top s.declared.locals s.arguments) }
        ensures arguments { IfOk result (λ s. spec.arguments heap.old words.now.arguments ≡ Ok (s.arguments, heap.new)) }
        ensures fault { IfErr result (λ e. e ≢ Refusal.Memory → spec.arguments heap.old words.now.arguments ≡ Err e) }
    {
        let arguments = arguments(heap, words.arguments.as_slice())?;
        Ok(unread(alloc, top, arguments)?)
    }

    /// What a name stands for that neither scripts nor the language have.
    pub fn name(&self, name: &str) -> Option<Value>
        ensures { result ≡ name_in (so_far self.now) name.now }
    {
        if name == "ARGUMENTS" {
            return Some(self.arguments);
        }
        Some(Value::Object(self.objects.name(name)?))
    }

    /// The path of the script of a number.
    pub fn script_at(&self, number: u64) -> Result<PathText, Memory>
        ensures { IfOk result (λ path. path ≡ script_at (so_far self.now) number) }
    {
        match self.scripts.as_slice().get(number as usize) {
            Some(path) => path.copy(),
            None => self.top.copy(),
        }
    }
}

/// The state in which nothing was read yet.
fn unread(alloc: Global, top: PathText, arguments: Value) -> Result<State, Memory>
    ensures locals { IfOk result (λ s. spec.AreFirst top s.declared.locals) }
    ensures state { IfOk result (λ s. so_far s ≡ spec.unread top s.declared.locals arguments) }
    ensures arguments { IfOk result (λ s. s.arguments ≡ arguments) }
{
    let mut objects = Objects::new(alloc);
    objects.add_names()?;
    let declared = undeclared(alloc, &top)?;
    Ok(State {
        objects,
        declared,
        arguments,
        exports: Scope::new(alloc),
        open: Vec::new(alloc),
        scripts: Paths::new(Vec::new(alloc)),
        first: VecDeque::new(alloc),
        top,
        alloc,
    })
}

/// Nothing is declared.
fn undeclared(alloc: Global, top: &PathText) -> Result<Declarations, Memory>
    ensures locals { IfOk result (λ d. spec.AreFirst top.now d.locals) }
    ensures declared { IfOk result (λ d. declared_of d ≡ spec.undeclared d.locals) }
{
    let mut declared = Declarations::new(alloc, top.copy()?)?;
    declared.locals = first_locals(alloc, top)?;
    Ok(declared)
}

/// What texts of scripts are read with at first: the nodes of no rule, from the top directory on.
fn first_locals(alloc: Global, top: &PathText) -> Result<Locals, Memory>
    ensures { IfOk result (spec.AreFirst top.now) }
{
    Ok(Locals {
        targets: Vec::new(alloc),
        sources: Vec::new(alloc),
        smartlink: Text::of(alloc, "$CC")?,
        dir: top_dir(alloc)?,
        top: top.copy()?,
        variants: Variants::new(alloc),
    })
}

/// The top directory, as a path.
pub fn top_dir(alloc: Global) -> Result<PathText, Memory>
    ensures { IfOk result (λ dir. dir ≡ codes ".") }
{
    match PathText::read(alloc, ".") {
        Ok(dir) => Ok(dir),
        Err(_) => Err(Memory),
    }
}

/// The dict of the words `NAME=value` of the command line.
fn arguments(heap: &mut Heap, words: &[(Text, Text)]) -> Result<Value, ValueFault>
    ensures ok { IfOk result (λ v. spec.arguments_given heap.old words.now ≡ Ok (v, heap.new)) }
    ensures fault { IfErr result (λ e. e ≢ ValueFault.Memory → spec.arguments_given heap.old words.now ≡ Err e) }
{
    let pairs = pairs_of(heap, words)?;
    heap.dict(pairs.as_slice())
}

/// The texts of words `NAME=value`.
#[tactic(auto, using(scons_calls::proofs::Loops::loops))]
fn pairs_of(heap: &mut Heap, words: &[(Text, Text)]) -> Result<Vec<(Value, Value)>, ValueFault>
    ensures ok { IfOk result (λ pairs. spec.pairs_of heap.old words.now ≡ Ok (pairs.items, heap.new)) }
    ensures fault { IfErr result (λ e. e ≢ ValueFault.Memory → spec.pairs_of heap.old words.now ≡ Err e) }
{
    let mut pairs = Vec::new(heap.allocator());
    for word in words {
        pairs.push(pair_of(heap, word)?)?;
    }
    Ok(pairs)
}

/// The two texts of a word `NAME=value`.
fn pair_of(heap: &mut Heap, word: &(Text, Text)) -> Result<(Value, Value), ValueFault>
    ensures ok { IfOk result (λ pair. spec.pair_of heap.old word.now ≡ Ok (pair, heap.new)) }
    ensures fault { IfErr result (λ e. e ≢ ValueFault.Memory → spec.pair_of heap.old word.now ≡ Err e) }
{
    let name = heap.text(word.0.as_str())?;
    let value = heap.text(word.1.as_str())?;
    Ok((name, value))
}
