//! Statements: scripts, lines and blocks.
use crate::expr::{Expr, Operator};
use scons_base::Text;
use std::rc::Rc;

/// A whole script.
#[derive(Debug, Drop)]
pub struct Script {
    pub lines: Vec<Line>,
}

/// A logical line, with the blocks below it.
#[derive(Debug, Drop)]
#[cycle(line)]
pub enum Line {
    /// Statements with `;` between them.
    Simple {
        statements: Vec<Simple>,
    },
    /// The `if` with its `elif`s, and the lines below `else`, none where there is no `else`.
    If {
        branches: Vec<Branch>,
        otherwise: Vec<Line>,
    },
    For {
        line: u32,
        names: Vec<Text>,
        source: Expr,
        block: Vec<Line>,
    },
    While {
        line: u32,
        test: Expr,
        block: Vec<Line>,
    },
    /// The block is shared with the functions that the line makes.
    Def {
        line: u32,
        name: Text,
        parameters: Vec<Parameter>,
        block: Rc<Vec<Line>>,
    },
}

/// An `if` or `elif` with its block.
#[derive(Debug, Drop)]
#[cycle(line)]
pub struct Branch {
    pub line: u32,
    pub test: Expr,
    pub block: Vec<Line>,
}

/// A parameter of a function, with its default.
#[derive(Debug, Drop)]
pub struct Parameter {
    pub line: u32,
    pub name: Text,
    pub default: Option<Expr>,
}

/// A statement without a block. The line of an assignment is that of its mark.
#[derive(Debug, Drop)]
pub enum Simple {
    /// The target is a name, an index behind an atom, or a tuple of at least two names.
    Assign {
        line: u32,
        target: Expr,
        value: Expr,
    },
    /// The target is a name or an index behind an atom.
    Augment {
        line: u32,
        operator: Operator,
        target: Expr,
        value: Expr,
    },
    Expression {
        value: Expr,
    },
    Pass {
        line: u32,
    },
    Break {
        line: u32,
    },
    Continue {
        line: u32,
    },
    Return {
        line: u32,
        value: Option<Expr>,
    },
    /// `from SCons.Script import *`.
    ImportScons {
        line: u32,
    },
}
