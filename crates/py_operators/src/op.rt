//! The operators that join two operands.

/// The operators that join two operands.
#[derive(Clone, Copy, Debug, PartialEq, Eq)]
pub enum Op {
    Eq,
    Ne,
    Lt,
    Le,
    Gt,
    Ge,
    Contains,
    NotContains,
    Is,
    IsNot,
    Add,
    Sub,
    Mul,
    FloorDiv,
    Rem,
}
