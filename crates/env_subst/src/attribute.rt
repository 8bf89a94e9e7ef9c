//! The attributes of nodes.
ghost use Rattle.std.specs.Prelude.{◌≡◌, ◌≤◌, ◌-◌, length, IfOk};
ghost use Rattle.std.specs.Str.{IsCharBoundary};
ghost use Rattle.variant_dirs.specs.Variants.{source_of};
ghost use Rattle.env_subst.specs.Attributes.{attribute_named, filebase_of, absolute_of, part_of, source_or, named_of};

use crate::locals::{Locals, Named};
use scons_base::{Memory, PathText, Text, joined};
use std::alloc::Global;

#[derive(Clone, Copy, Debug, PartialEq, Eq)]
pub(crate) enum Attribute {
    Base,
    Dir,
    File,
    Filebase,
    Suffix,
    Abspath,
    Srcpath,
    Srcdir,
}

/// The attribute of this name.
pub(crate) fn attribute_named(name: &str) -> Option<Attribute>
    ensures { result ≡ attribute_named name.now }
{
    if name == "base" {
        Some(Attribute::Base)
    } else if name == "dir" {
        Some(Attribute::Dir)
    } else if name == "file" {
        Some(Attribute::File)
    } else if name == "filebase" {
        Some(Attribute::Filebase)
    } else if name == "suffix" {
        Some(Attribute::Suffix)
    } else if name == "abspath" {
        Some(Attribute::Abspath)
    } else if name == "srcpath" {
        Some(Attribute::Srcpath)
    } else if name == "srcdir" {
        Some(Attribute::Srcdir)
    } else {
        None
    }
}

/// What an attribute of a node says.
pub(crate) fn part_of(
    alloc: Global,
    locals: &Locals,
    attribute: Attribute,
    node: &Named,
) -> Result<Text, Memory>
    ensures { IfOk result (λ t. t ≡ part_of locals.now.top attribute node.now) }
{
    match attribute {
        Attribute::Base => Text::of(alloc, node.path.base()),
        Attribute::Dir => Text::of(alloc, node.path.dir()),
        Attribute::File => Text::of(alloc, node.path.name()),
        Attribute::Filebase => Text::of(alloc, filebase_of(&node.path)),
        Attribute::Suffix => Text::of(alloc, node.path.suffix()),
        Attribute::Abspath => absolute_of(alloc, &locals.top, &node.path),
        Attribute::Srcpath => Text::of(alloc, node.src.as_str()),
        Attribute::Srcdir => Text::of(alloc, node.src.dir()),
    }
}

/// The name without its suffix.
fn filebase_of(path: &PathText) -> &str
    ensures { result.now ≡ filebase_of path.now }
{
    let name = path.name();
    &name[..name.len() - path.suffix().len()]
}

fn absolute_of(alloc: Global, top: &PathText, path: &PathText) -> Result<Text, Memory>
    ensures { IfOk result (λ t. t ≡ absolute_of top.now path.now) }
{
    match path.as_str().as_bytes() {
        [b'/', ..] => Text::of(alloc, path.as_str()),
        b"." => Text::of(alloc, top.as_str()),
        _ => Ok(Text::new(joined(alloc, top.as_str(), path.as_str())?)),
    }
}

/// A path as a node with its source.
pub(crate) fn named_of(locals: &Locals, path: &PathText) -> Result<Named, Memory>
    ensures { IfOk result (λ n. n ≡ named_of locals.now path.now) }
{
    let src = source_or(locals, path)?;
    Ok(Named {
        path: path.copy()?,
        src,
    })
}

/// The source file of a path in a variant directory, and else the path.
fn source_or(locals: &Locals, path: &PathText) -> Result<PathText, Memory>
    ensures { IfOk result (λ p. p
        ≡ source_or path.now (source_of locals.now.variants locals.now.top path.now)) }
{
    match locals.variants.source_of(&locals.top, path)? {
        Some(source) => Ok(source),
        None => path.copy(),
    }
}
