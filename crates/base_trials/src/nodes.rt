//! What lines on nodes ask for.
use crate::written::path_of;
use node_tree::{NodeRefusal, Nodes};
use scons_base::NodeId;
use std::alloc::Global;
use trial_text::Told;

/// The number of a path, and how many have one then.
pub(crate) fn put_number(alloc: Global, told: &mut Told, nodes: &mut Nodes, field: &str) {
    told.put_all(&[field, ": "]);
    let Some(path) = path_of(alloc, field) else {
        return told.refuse();
    };
    match nodes.intern(&path) {
        Ok(NodeId(number)) => told.show(number),
        Err(NodeRefusal::Full(count)) => {
            told.put("!Full ");
            told.show(count);
        }
        Err(NodeRefusal::Memory) => told.refuse(),
    }
    told.put(" of ");
    told.show(nodes.len());
}

/// The number that a path has, and the path of that number.
pub(crate) fn put_found(alloc: Global, told: &mut Told, nodes: &Nodes, field: &str) {
    told.put_all(&["find ", field, ": "]);
    let Some(path) = path_of(alloc, field) else {
        return told.refuse();
    };
    match nodes.find(&path) {
        Some(id) => put_node(told, nodes, id),
        None => told.put("none"),
    }
}

fn put_node(told: &mut Told, nodes: &Nodes, id: NodeId) {
    if id.0 >= nodes.len() {
        return told.refuse();
    }
    told.show(id.0);
    told.put_all(&[", ", nodes.path(id).as_str()]);
}

/// So many paths get numbers; the last one.
pub(crate) fn put_many(alloc: Global, told: &mut Told, nodes: &mut Nodes, field: &str) {
    let count = told.number(field);
    let mut last = 0;
    for i in 0..count {
        match number_of(alloc, nodes, i) {
            Some(number) => last = number,
            None => told.refuse(),
        }
    }
    told.put_all(&[field, " paths, the last "]);
    told.show(last);
    told.put(" of ");
    told.show(nodes.len());
}

fn number_of(alloc: Global, nodes: &mut Nodes, i: u32) -> Option<u32> {
    let text = format!(in alloc; "src/n{i}.c").ok()?;
    let path = path_of(alloc, text.as_str())?;
    Some(nodes.intern(&path).ok()?.0)
}
