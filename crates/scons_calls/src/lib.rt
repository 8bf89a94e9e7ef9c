//! From the arguments of a script to typed calls: which arguments each name of SCons takes, in which places, by which
//! names, and of which kind each is.
//!
//! `signatures` is the table of the names, in the order of the manual, `left_out` that of the names that are left out.
//! `bind` finds the arguments of a signature, `convert` and the files behind it turn the values of each into what its kind
//! says, and `requests` makes of them what the host is asked. Refusals come in one order everywhere: a wrong number or name
//! first, then the kinds in the order of the signature.
#![tactic(auto)]

mod argument;
mod arguments;
mod bind;
mod builders;
mod convert;
mod exports;
mod fault;
mod flattening;
mod left_out;
mod name;
mod nodes;
mod objects;
mod pairs;
mod parts;
mod replacing;
mod request;
mod requests;
mod signature;
mod signatures;
mod texts;
mod thing;
mod values;
mod variable_values;
mod variables;
mod variables_given;
mod words;

pub use builders::builder;
pub use exports::Exports;
pub use fault::CallFault;
pub use flattening::{flat_items, flattened};
pub use left_out::{is_left_out, is_left_out_of_environments};
pub use name::{Name, NameId};
pub use objects::Objects;
pub use request::{Request, ScriptFiles, Shared, Valued};
pub use requests::{own_request_of, request_of};
pub use thing::Thing;
pub use values::{
    dict_value, given_value, list_value, nodes_value, text_value, texts_value, tuple_value,
};
pub use variable_values::variable_value;
pub use variables::{is_identifier, variable_of};
