//! What is left to do in a body, task by task.
use py_methods::Name;
use py_operators::Op;
use py_state::Walk;
use py_tree::{
    Argument, Branch, Expr, Line, Link, Operation, Operator, Pair, Parameter, Piece, Simple,
};
use scons_base::Text;
use std::rc::Rc;

/// A comprehension's parts.
#[derive(Clone, Copy)]
pub struct Comprehension<'a> {
    pub line: u32,
    pub item: &'a Expr,
    pub names: &'a [Text],
    pub tests: &'a [Expr],
}

/// How far a comprehension has come. The items so far are the uppermost values.
#[derive(Clone, Copy)]
pub struct Collecting<'a> {
    pub comprehension: Comprehension<'a>,
    pub walk: Walk,
    pub count: usize,
}

/// A `for`'s parts.
#[derive(Clone, Copy)]
pub struct Loop<'a> {
    pub line: u32,
    pub names: &'a [Text],
    pub block: &'a [Line],
}

/// A `while`'s parts.
#[derive(Clone, Copy)]
pub struct Round<'a> {
    pub line: u32,
    pub test: &'a Expr,
    pub block: &'a [Line],
}

/// A `def`'s parts.
#[derive(Clone, Copy)]
pub struct Definition<'a> {
    pub name: &'a Text,
    pub parameters: &'a [Parameter],
    pub block: &'a Rc<Vec<Line>>,
}

/// Something that is left to do. What it takes are the uppermost values, and what it gives takes their place.
#[derive(Clone, Copy)]
pub enum Task<'a> {
    /// Expressions, each of which gives one value.
    Evaluate(&'a Expr),
    EvaluateAll(&'a [Expr]),
    Pairs(&'a [Pair]),
    Arguments(&'a [Argument]),
    /// Those of the parameters that have a default.
    Defaults(&'a [Parameter]),
    /// Those of the pieces that are fields.
    Fields(&'a [Piece]),
    /// Displays of the values above a height.
    Tuple {
        line: u32,
        base: usize,
    },
    List {
        line: u32,
        base: usize,
    },
    Dict {
        line: u32,
        base: usize,
    },
    /// The text of a field whose value is there, and a text of the pieces whose fields gave the values above a height.
    Show {
        line: u32,
    },
    Join {
        line: u32,
        pieces: &'a [Piece],
        base: usize,
    },
    /// One of two expressions, by a test that is there.
    Pick {
        value: &'a Expr,
        other: &'a Expr,
    },
    /// Operators on values that are there.
    Negate {
        line: u32,
    },
    Not,
    Binary {
        line: u32,
        op: Op,
    },
    /// Operators behind their left operand, which is there.
    Operations(&'a [Operation]),
    /// What stands behind a value, which is there.
    Links {
        links: &'a [Link],
        named: Option<u32>,
    },
    /// A call of the value below its arguments, which stand above a height, or of its method.
    Call {
        line: u32,
        method: Option<Name>,
        arguments: &'a [Argument],
        base: usize,
    },
    Index {
        line: u32,
    },
    Slice {
        line: u32,
        from: bool,
        to: bool,
    },
    /// A comprehension whose source is there, its turns, and its tests.
    Comprehend(Comprehension<'a>),
    Collect(Collecting<'a>),
    Tests {
        collecting: Collecting<'a>,
        tests: &'a [Expr],
    },
    Tested {
        collecting: Collecting<'a>,
        tests: &'a [Expr],
    },
    /// Lines and statements.
    Lines(&'a [Line]),
    Statements(&'a [Simple]),
    /// The value of an expression is of no use.
    Forget,
    Return,
    Branches {
        branches: &'a [Branch],
        otherwise: &'a [Line],
    },
    Choose {
        branch: &'a Branch,
        branches: &'a [Branch],
        otherwise: &'a [Line],
    },
    /// A `for` whose source is there, and its turns.
    Begin(Loop<'a>),
    Turns {
        turns: Loop<'a>,
        walk: Walk,
    },
    /// The turns of a `while` from a test on, and a turn whose test is there.
    Rounds(Round<'a>),
    Round(Round<'a>),
    /// The values of the defaults stand above a height.
    Define {
        definition: Definition<'a>,
        base: usize,
    },
    /// A value that is there goes to a target.
    Assign {
        line: u32,
        target: &'a Expr,
    },
    Bind(&'a Text),
    /// The item under a key behind both, which stay.
    Load {
        line: u32,
    },
    /// An augmented assignment's operator.
    Augment {
        line: u32,
        operator: Operator,
    },
    /// A value in front of the place that it goes to, and one behind it.
    StoreBelow {
        line: u32,
    },
    StoreAbove {
        line: u32,
    },
}
