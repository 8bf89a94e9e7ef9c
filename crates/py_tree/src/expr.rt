//! Expressions.
use scons_base::Text;

/// `True`, `False` and `None`.
#[derive(Clone, Copy, Debug, PartialEq, Eq, Drop)]
pub enum Constant {
    True,
    False,
    None,
}

/// The operators that join any number of operands, lowest level first.
#[derive(Clone, Copy, Debug, PartialEq, Eq, Drop)]
pub enum Operator {
    Or,
    And,
    Add,
    Subtract,
    Multiply,
    FloorDivide,
    Remainder,
}

/// The operators of a comparison, which joins two operands.
#[derive(Clone, Copy, Debug, PartialEq, Eq, Drop)]
pub enum Comparison {
    Equal,
    NotEqual,
    Less,
    LessEqual,
    Greater,
    GreaterEqual,
    In,
    NotIn,
    Is,
    IsNot,
}

/// An expression. A line is that of the token that names the form: the operator, the bracket, the word.
#[derive(Debug, Drop)]
#[cycle(tree)]
pub enum Expr {
    Name {
        line: u32,
        name: Text,
    },
    Integer {
        line: u32,
        value: u64,
    },
    Text {
        line: u32,
        text: Text,
    },
    /// Texts behind one another, of which at least one is an f-text. The line is that of the first one.
    Joined {
        line: u32,
        pieces: Vec<Piece>,
    },
    Constant {
        line: u32,
        constant: Constant,
    },
    /// What stands in parentheses; `()` is the empty tuple in parentheses.
    Group {
        line: u32,
        inner: Box<Expr>,
    },
    /// The line is that of its first comma, or of the parenthesis of `()`.
    Tuple {
        line: u32,
        items: Vec<Expr>,
        trailing_comma: bool,
    },
    List {
        line: u32,
        items: Vec<Expr>,
    },
    Comprehension {
        line: u32,
        item: Box<Expr>,
        names: Vec<Text>,
        source: Box<Expr>,
        tests: Vec<Expr>,
    },
    Dict {
        line: u32,
        pairs: Vec<Pair>,
    },
    /// Calls, indices and attributes behind an atom, of which there is at least one.
    Post {
        atom: Box<Expr>,
        links: Vec<Link>,
    },
    Negative {
        line: u32,
        operand: Box<Expr>,
    },
    Not {
        line: u32,
        operand: Box<Expr>,
    },
    /// Operands joined by operators of one level, from left to right.
    Chain {
        first: Box<Expr>,
        rest: Vec<Operation>,
    },
    Compare {
        line: u32,
        comparison: Comparison,
        left: Box<Expr>,
        right: Box<Expr>,
    },
    /// `value if test else other`.
    Choice {
        line: u32,
        value: Box<Expr>,
        test: Box<Expr>,
        other: Box<Expr>,
    },
}

/// What stands behind an atom.
#[derive(Debug, Drop)]
#[cycle(tree)]
pub enum Link {
    Attribute {
        line: u32,
        name: Text,
    },
    /// Positional arguments, then named ones.
    Call {
        line: u32,
        arguments: Vec<Argument>,
    },
    Index {
        line: u32,
        index: Box<Expr>,
    },
    Slice {
        line: u32,
        lower: Option<Box<Expr>>,
        upper: Option<Box<Expr>>,
    },
}

/// An argument of a call.
#[derive(Debug, Drop)]
#[cycle(tree)]
pub enum Argument {
    Positional { value: Expr },
    Named { line: u32, name: Text, value: Expr },
}

/// An operator of a chain and its right operand.
#[derive(Debug, Drop)]
#[cycle(tree)]
pub struct Operation {
    pub line: u32,
    pub operator: Operator,
    pub operand: Expr,
}

/// A key of a dict display, the line of its colon, and its value.
#[derive(Debug, Drop)]
#[cycle(tree)]
pub struct Pair {
    pub line: u32,
    pub key: Expr,
    pub value: Expr,
}

/// A piece of joined texts: characters, or a field of an f-text, which stands on the line of its brace.
#[derive(Debug, Drop)]
#[cycle(tree)]
pub enum Piece {
    Part { line: u32, text: Text },
    Field { line: u32, value: Expr },
}
