//! On which line a statement or an expression begins.
ghost use Rattle.std.specs.Prelude.{◌≡◌};
ghost use Rattle.py_tree.specs.Tree.{simple_tree, expr_tree};
ghost use Rattle.py_meaning.specs.Lines.{first_line};

use py_tree::{Expr, Simple};

#[tactic(auto, using(crate::proofs::Trees::views))]
pub fn first_line(statement: &Simple) -> u32
    ensures { result ≡ first_line (simple_tree statement.now) }
{
    match statement {
        Simple::Assign { target, .. } | Simple::Augment { target, .. } => expression_line(target),
        Simple::Expression { value } => expression_line(value),
        Simple::Pass { line }
        | Simple::Break { line }
        | Simple::Continue { line }
        | Simple::Return { line, .. }
        | Simple::ImportScons { line } => *line,
    }
}

/// The line of an expression's first token.
#[tactic(auto, using(crate::proofs::Trees::views))]
pub fn expression_line(expr: &Expr) -> u32
    ensures { result ≡ first_line (expr_tree expr.now) }
{
    match expr {
        Expr::Name { line, .. }
        | Expr::Integer { line, .. }
        | Expr::Text { line, .. }
        | Expr::Joined { line, .. }
        | Expr::Constant { line, .. }
        | Expr::Group { line, .. }
        | Expr::List { line, .. }
        | Expr::Comprehension { line, .. }
        | Expr::Dict { line, .. }
        | Expr::Negative { line, .. }
        | Expr::Not { line, .. } => *line,
        Expr::Tuple { line, items, .. } => match items.as_slice() {
            [first, ..] => expression_line(first),
            [] => *line,
        },
        Expr::Post { atom, .. } => expression_line(atom),
        Expr::Chain { first, .. } => expression_line(first),
        Expr::Compare { left, .. } => expression_line(left),
        Expr::Choice { value, .. } => expression_line(value),
    }
}
