//! 100,000 paths that get a number, and are found again.
use node_tree::Nodes;
use scons_base::PathText;
use std::alloc::Global;
use std::io;

const PATHS: u32 = 100_000;

pub fn intern_and_find(rt: &HostRuntime) -> io::Result<()> {
    let mut nodes = Nodes::new(rt.alloc());
    if !intern_all(rt.alloc(), &mut nodes) {
        return rt.println("refused");
    }
    let found = found(rt.alloc(), &nodes);
    println!(rt; "{} nodes, {found} found", nodes.len())
}

/// Gives each path a number, and says whether there was memory for it.
fn intern_all(alloc: Global, nodes: &mut Nodes) -> bool {
    for i in 0..PATHS {
        let Some(path) = path(alloc, i) else {
            return false;
        };
        if nodes.intern(&path).is_err() {
            return false;
        }
    }
    true
}

/// How many paths are found again.
fn found(alloc: Global, nodes: &Nodes) -> u32 {
    let mut found = 0u32;
    for i in 0..PATHS {
        if let Some(path) = path(alloc, i)
            && nodes.find(&path).is_some()
        {
            found = found.saturating_add(1);
        }
    }
    found
}

fn path(alloc: Global, i: u32) -> Option<PathText> {
    let dir = i / 100;
    let text = format!(in alloc; "src/dir{dir}/file{i}.c").ok()?;
    PathText::read(alloc, text.as_str()).ok()
}
