//! What a signature says of the arguments of a name.
use std::marker::Model;

/// Of which kind an argument is.
#[derive(Clone, Copy)]
pub enum Kind {
    /// A text.
    Text,
    /// A path text, or a node or directory.
    Place,
    /// Path texts and nodes, flattened.
    Nodes,
    /// The lines of an action: texts, flattened and cut at line feeds.
    Lines,
    /// Names: texts, flattened and cut at white space.
    Names,
    /// Texts as they stand, flattened.
    Texts,
    /// What is replaced in a text: a dict of keys, which aren't empty, with texts and numbers.
    Pairs,
    /// What is exported: names, and dicts of names and values.
    Exports,
    /// True or False, 1 or 0.
    Flag,
    /// How a text is substituted: 0, 1 or 2.
    Mode,
    /// What stands for it where it isn't given, True, False or None, and nothing else: any other value is left out here.
    True,
    False,
    None,
    /// Any value.
    Any,
}

/// How many arguments a parameter takes.
#[derive(Clone, Copy)]
pub enum Takes {
    One,
    OneOrNone,
    /// All that stand from its place on, at least one.
    Some,
    /// All that stand from its place on, if any.
    Any,
}

/// A parameter: its name, of which kind its argument is, and how many it takes.
pub type Parameter = (&'static str, Kind, Takes);

/// What named arguments are that no parameter is called by.
#[derive(Clone, Copy)]
pub enum Others {
    Refused,
    /// SCons takes them, and they are left out here.
    LeftOut,
    Variables,
    Exports,
}

/// The arguments that a name takes, in their order.
#[derive(Drop)]
pub struct Signature {
    pub parameters: &'static [Parameter],
    /// The names of arguments on which SCons acts and that are left out here.
    pub left_out: &'static [&'static str],
    pub others: Others,
}

impl Model for Signature {
    ghost use Rattle.std.specs.Prelude.{map};
    ghost use Rattle.scons_calls.specs.Signatures.{Signature as SignatureSpec, parameter_of, signature_by};

    ghost Value = { SignatureSpec };

    ghost view = { λ s. signature_by (map parameter_of s.parameters.now) (map (λ n. n.now) s.left_out.now) s.others };
}
