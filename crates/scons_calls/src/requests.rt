//! From a call's arguments to what the host is asked.
ghost use Rattle.std.specs.Prelude.{◌≡◌, ◌≢◌, Ok, Err, IfOk, IfErr, OnOk};
ghost use Rattle.py_host.specs.Calls.{arguments_of};
ghost use Rattle.scons_calls.specs.Requests.{asked, built, declares, maker_of, environs_call, says_call, tells_request, shares_request, targets_and_sources, request_of, own_request_of, builder_of, default_of};
ghost use Rattle.scons_calls.specs.Requests.{front, behind, nodes_in};

use crate::arguments::Arguments;
use crate::bind::bound;
use crate::exports::put_named;
use crate::fault::CallFault;
use crate::name::{Builds, Environs, Name, Says, Shares, Tells};
use crate::objects::Objects;
use crate::parts::{
    any, exports, flag, mode, nodes, nodes_in, pairs, place, place_if, text, texts,
};
use crate::request::{Request, ScriptFiles, Shared, Valued};
use crate::signatures::{own_builder_signature, signature};
use crate::variables_given::variables;
use py_heap::Heap;
use py_host::Args;
use scons_base::Text;
use scons_decls::{Builder, Call, Change, Maker, Nodes, RuleCall, SayCall, Variables};
use std::alloc::Global;

/// What a call of a name asks.
#[tactic(auto, using(crate::proofs::Tails::tails))]
pub fn request_of(
    heap: &Heap,
    objects: &Objects,
    name: Name,
    args: &Args,
) -> Result<Request, CallFault>
    ensures ok { let given = arguments_of args.now in
        IfOk result (λ r. request_of heap.now objects.now name given ≡ Ok r) }
    ensures fault { let given = arguments_of args.now in
        IfErr result (λ e. e ≢ CallFault.Memory → request_of heap.now objects.now name given ≡ Err e) }
{
    let signature = signature(name);
    let mut arguments = bound(heap, objects, &signature, args)?;
    let variables = variables(heap, objects, &signature, &args.named)?;
    asked(heap.allocator(), name, &mut arguments, variables, args)
}

/// What a call of an environment's own builder asks.
#[tactic(auto, using(crate::proofs::Tails::tails))]
pub fn own_request_of(
    heap: &Heap,
    objects: &Objects,
    name: &Text,
    args: &Args,
) -> Result<Request, CallFault>
    ensures ok { let given = arguments_of args.now in
        IfOk result (λ r. own_request_of heap.now objects.now name.now given ≡ Ok r) }
    ensures fault { let given = arguments_of args.now in
        IfErr result (λ e. e ≢ CallFault.Memory → own_request_of heap.now objects.now name.now given ≡ Err e) }
{
    let signature = own_builder_signature();
    let mut arguments = bound(heap, objects, &signature, args)?;
    let variables = variables(heap, objects, &signature, &args.named)?;
    built(
        heap.allocator(),
        Maker::Own(name.copy()?),
        &mut arguments,
        variables,
    )
}

fn asked(
    alloc: Global,
    name: Name,
    arguments: &mut Arguments,
    variables: Variables,
    args: &Args,
) -> Result<Request, CallFault>
    ensures ok { IfOk result (λ r. asked name arguments.old variables args.now.named ≡ Ok r) }
    ensures fault { IfErr result (λ e. e ≢ CallFault.Memory →
        asked name arguments.old variables args.now.named ≡ Err e) }
{
    match name {
        Name::Builds(name) => built(alloc, maker_of(name), arguments, variables),
        Name::Environs(name) => Ok(declares(environs(alloc, name, arguments, variables)?)),
        Name::Says(name) => Ok(declares(said(alloc, name, arguments)?)),
        Name::Tells(name) => Ok(told(alloc, name, arguments)),
        Name::Shares(name) => shared(alloc, name, arguments, args),
    }
}

/// What a builder's name makes.
fn maker_of(name: Builds) -> Maker
    ensures { result ≡ maker_of name }
{
    match name {
        Builds::Object => Maker::Object,
        Builds::Program => Maker::Program,
        Builds::StaticLibrary | Builds::Library => Maker::StaticLibrary,
    }
}

fn declares(call: Call) -> Request
    ensures { result ≡ declares call }
{
    Request::Gives(Valued::Declare(call))
}

/// A call of a builder.
fn built(
    alloc: Global,
    maker: Maker,
    arguments: &mut Arguments,
    variables: Variables,
) -> Result<Request, CallFault>
    ensures ok { IfOk result (λ r. built maker arguments.old variables ≡ Ok r) }
    ensures fault { IfErr result (λ e. e ≢ CallFault.Memory → built maker arguments.old variables ≡ Err e) }
{
    let (targets, sources) = targets_and_sources(alloc, arguments)?;
    Ok(declares(Call::Rules(RuleCall::Build {
        maker,
        targets,
        sources,
        variables,
    })))
}

/// Targets, if any are given, and sources. Where one list alone is given it is the sources.
fn targets_and_sources(
    alloc: Global,
    from: &mut Arguments,
) -> Result<(Option<Nodes>, Nodes), CallFault>
    ensures found { result ≡ targets_and_sources from.old }
    ensures rest { OnOk result (from.new ≡ behind (behind from.old)) }
{
    let first = from.take();
    let second = from.take();
    match (first, second) {
        (None, None) => Err(CallFault::Arguments),
        (Some(sources), None) => Ok((None, nodes_in(alloc, Some(sources)))),
        (None, Some(sources)) => Ok((None, nodes_in(alloc, Some(sources)))),
        (Some(targets), Some(sources)) => {
            let targets = nodes_in(alloc, Some(targets));
            Ok((Some(targets), nodes_in(alloc, Some(sources))))
        }
    }
}

/// What is asked by the names that are called with variables, or act on them.
fn environs(
    alloc: Global,
    name: Environs,
    from: &mut Arguments,
    variables: Variables,
) -> Result<Call, CallFault>
    ensures { result ≡ environs_call name from.old variables }
{
    Ok(match name {
        Environs::Environment => Call::Environment(variables),
        Environs::DefaultEnvironment => Call::DefaultEnvironment(variables),
        Environs::Clone => Call::Clone(variables),
        Environs::Append => Call::Change(Change::Append, variables),
        Environs::Prepend => Call::Change(Change::Prepend, variables),
        Environs::AppendUnique => Call::Change(Change::AppendUnique, variables),
        Environs::Replace => Call::Change(Change::Replace, variables),
        Environs::SetDefault => Call::Change(Change::SetDefault, variables),
        Environs::Subst => Call::Subst(text(alloc, from), mode(from)),
        Environs::Command => Call::Rules(RuleCall::Command {
            targets: nodes(alloc, from),
            sources: nodes(alloc, from),
            action: texts(alloc, from),
            variables,
        }),
        Environs::Textfile => Call::Rules(RuleCall::Textfile {
            targets: nodes(alloc, from),
            texts: texts(alloc, from),
            pairs: pairs(alloc, from),
            variables,
        }),
        Environs::Substfile => {
            let (targets, sources) = targets_and_sources(alloc, from)?;
            Call::Rules(RuleCall::Substfile {
                targets,
                sources,
                pairs: pairs(alloc, from),
                variables,
            })
        }
        Environs::Builder => Call::NewBuilder(builder_of(alloc, from)),
        Environs::Decider => Call::Decider(text(alloc, from)),
        Environs::Help => Call::Help(text(alloc, from)),
    })
}

/// What is asked by the names that say something of nodes.
fn said(alloc: Global, name: Says, from: &mut Arguments) -> Result<Call, CallFault>
    ensures ok { IfOk result (λ c. says_call name from.old ≡ Ok c) }
    ensures fault { IfErr result (λ e. e ≢ CallFault.Memory → says_call name from.old ≡ Err e) }
{
    Ok(match name {
        Says::Install => Call::Rules(RuleCall::Install {
            dirs: nodes(alloc, from),
            sources: nodes(alloc, from),
        }),
        Says::InstallAs => Call::Rules(RuleCall::InstallAs {
            targets: nodes(alloc, from),
            sources: nodes(alloc, from),
        }),
        Says::VariantDir => Call::VariantDir {
            variant: place(from)?,
            source: place(from)?,
            duplicate: flag(from),
        },
        Says::Depends => Call::Says(SayCall::Depends {
            targets: nodes(alloc, from),
            nodes: nodes(alloc, from),
        }),
        Says::Requires => Call::Says(SayCall::Requires {
            targets: nodes(alloc, from),
            nodes: nodes(alloc, from),
        }),
        Says::Ignore => Call::Says(SayCall::Ignore {
            targets: nodes(alloc, from),
            nodes: nodes(alloc, from),
        }),
        Says::AlwaysBuild => Call::Says(SayCall::AlwaysBuild(nodes(alloc, from))),
        Says::Alias => Call::Says(SayCall::Alias {
            names: nodes(alloc, from),
            members: nodes(alloc, from),
        }),
        Says::Default => wanted(alloc, from)?,
        Says::File => Call::File(place(from)?),
        Says::Dir => Call::Dir(place(from)?),
    })
}

/// What is asked of the host alone.
fn told(alloc: Global, name: Tells, from: &mut Arguments) -> Request
    ensures { result ≡ tells_request name from.old }
{
    match name {
        Tells::Get => Request::Gives(Valued::Get(text(alloc, from), any(from))),
        Tells::Glob => Request::Glob(text(alloc, from)),
        Tells::Split => Request::Gives(Valued::Split(any(from))),
        Tells::Flatten => Request::Gives(Valued::Flatten(any(from))),
        Tells::EnsureSConsVersion | Tells::EnsurePythonVersion => Request::Gives(Valued::Nothing),
    }
}

/// What is asked of other scripts.
fn shared(
    alloc: Global,
    name: Shares,
    from: &mut Arguments,
    args: &Args,
) -> Result<Request, CallFault>
    ensures ok { IfOk result (λ r. shares_request name from.old args.now.named ≡ r) }
    ensures fault { IfErr result (λ e. e ≡ CallFault.Memory) }
{
    Ok(match name {
        Shares::SConscript => Request::Scripts(ScriptFiles {
            files: nodes(alloc, from),
            exports: exports(alloc, from),
            variant: place_if(from),
            duplicate: flag(from),
        }),
        Shares::Export => {
            let mut exports = exports(alloc, from);
            put_named(alloc, &mut exports.values, &args.named)?;
            Request::Shares(Shared::Export(exports))
        }
        Shares::Import => Request::Shares(Shared::Import(texts(alloc, from))),
        Shares::Return => Request::Shares(Shared::Return(texts(alloc, from))),
    })
}

fn builder_of(alloc: Global, from: &mut Arguments) -> Builder
    ensures { result ≡ builder_of from.old }
{
    let action = texts(alloc, from);
    let suffix = text(alloc, from);
    let src_suffix = text(alloc, from);
    let prefix = text(alloc, from);
    Builder {
        action,
        prefix,
        suffix,
        src_suffix,
    }
}

/// What `Default` names. To SCons nothing, or None, takes away what a run without words makes; that is left out here.
fn wanted(alloc: Global, from: &mut Arguments) -> Result<Call, CallFault>
    ensures ok { IfOk result (λ c. default_of (nodes_in (front from.old)) ≡ Ok c) }
    ensures fault { IfErr result (λ e. e ≢ CallFault.Memory → default_of (nodes_in (front from.old)) ≡ Err e) }
{
    let nodes = nodes(alloc, from);
    if nodes.is_empty() {
        return Err(CallFault::LeftOut(Text::of(alloc, "Default(None)")?));
    }
    Ok(Call::Default(nodes))
}
