//! The levels of the operators that join operands.

/// The levels of operators that join any number of operands, lowest first.
#[derive(Clone, Copy, Debug, PartialEq, Eq, Drop)]
pub enum Level {
    Or,
    And,
    Sum,
    Product,
}
