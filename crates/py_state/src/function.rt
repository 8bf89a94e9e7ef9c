//! Functions of scripts.
use indexmap::IndexSet;
use py_heap::Value;
use py_tree::Line;
use scons_base::Text;
use std::marker::Model;
use std::rc::Rc;

/// A parameter, with the value of its default.
#[derive(Drop)]
pub struct Bindable {
    pub name: Text,
    pub default: Option<Value>,
}

impl Model for Bindable {
    ghost use Rattle.py_meaning.specs.States.{Parameter};

    ghost Value = { Parameter };

    ghost view = { λ b. record { name = b.name; default = b.default } };
}

/// What a `def` makes.
#[derive(Drop)]
pub struct Function {
    /// The name that the `def` has.
    pub name: Text,
    /// The script in which it stands.
    pub script: u64,
    pub parameters: Vec<Bindable>,
    pub locals: IndexSet<Text>,
    pub body: Rc<Vec<Line>>,
}
