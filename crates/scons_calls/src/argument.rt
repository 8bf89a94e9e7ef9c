//! An argument, turned into what its kind says.
use crate::exports::Exports;
use env_subst::Mode;
use py_heap::Value;
use scons_base::{Text, Texts};
use scons_decls::{Given, Nodes, Pairs};

#[derive(Drop)]
pub enum Argument {
    Text(Text),
    Place(Given),
    Nodes(Nodes),
    Texts(Texts),
    Pairs(Pairs),
    Exports(Exports),
    Flag(bool),
    Mode(Mode),
    Any(Value),
}
