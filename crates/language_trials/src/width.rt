//! How wide a tree is.
use py_tree::{Expr, Line, Link, Script, Simple};

/// How many parts stand side by side: lines, the branches of the only line, or the parts of the expression on it.
pub fn width(script: &Script) -> usize {
    match script.lines.as_slice() {
        [Line::If { branches, .. }] => branches.len(),
        [Line::Simple { statements }] => statements.first().map_or(0, width_of_statement),
        lines => lines.len(),
    }
}

fn width_of_statement(statement: &Simple) -> usize {
    let Simple::Expression { value } = statement else {
        return 0;
    };
    match value {
        Expr::Chain { rest, .. } => rest.len(),
        Expr::List { items, .. } => items.len(),
        Expr::Tuple { items, .. } => items.len(),
        Expr::Dict { pairs, .. } => pairs.len(),
        Expr::Joined { pieces, .. } => pieces.len(),
        Expr::Post { links, .. } => usize::max(links.len(), arguments(links.as_slice())),
        _ => 0,
    }
}

fn arguments(links: &[Link]) -> usize {
    match links.first() {
        Some(Link::Call { arguments, .. }) => arguments.len(),
        _ => 0,
    }
}
