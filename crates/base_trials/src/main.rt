//! Tries paths, variant directories and nodes on the table that standard input holds, and prints what each line gives.
//!
//! A line is a verb and its fields, with `|` between; in a path `\z` stands for a zero byte, and `N*C` for a character so many
//! times. `read`, `resolve`, `parts` and `below` try paths (`paths.rt`); `block` begins new variant directories and nodes, `add`,
//! `source` and `search` try the first (`variants.rt`), `intern`, `find` and `many` the second (`nodes.rt`). An empty line and one
//! that begins with `#` say nothing.
#![tactic(auto)]

mod nodes;
mod paths;
mod variants;
mod written;

use crate::nodes::{put_found, put_many, put_number};
use crate::paths::{put_below, put_parts, put_read, put_resolved};
use crate::variants::{put_added, put_searched, put_source};
use node_tree::Nodes;
use std::alloc::Global;
use std::io;
use trial_text::Told;
use variant_dirs::Variants;

/// The variant directories and nodes of a block.
#[derive(Drop)]
struct Tables {
    variants: Variants,
    nodes: Nodes,
}

fn main(rt: HostRuntime) -> io::Result<()> {
    let table = io::read_to_string(rt.alloc(), rt.reader())?;
    let mut told = Told::new(rt.alloc());
    answer_all(rt.alloc(), &mut told, table.as_str());
    rt.print(told.as_str())
}

/// Tells what each line of the table gives.
fn answer_all(alloc: Global, told: &mut Told, table: &str) {
    let mut tables = new_tables(alloc);
    for line in table.lines() {
        if line.is_empty() || line.starts_with('#') {
            continue;
        }
        match line.split_once('|') {
            Some((verb, rest)) => answer(alloc, told, &mut tables, verb, rest),
            None => told.refuse(),
        }
        told.put("\n");
        told.end(line);
    }
}

fn new_tables(alloc: Global) -> Tables {
    Tables {
        variants: Variants::new(alloc),
        nodes: Nodes::new(alloc),
    }
}

fn answer(alloc: Global, told: &mut Told, tables: &mut Tables, verb: &str, rest: &str) {
    match verb {
        "block" => {
            *tables = new_tables(alloc);
            told.put_all(&["# ", rest]);
        }
        "read" => put_read(alloc, told, rest),
        "resolve" => put_resolved(alloc, told, rest),
        "parts" => put_parts(alloc, told, rest),
        "below" => put_below(alloc, told, rest),
        "add" => put_added(alloc, told, &mut tables.variants, rest),
        "source" => put_source(alloc, told, &tables.variants, rest),
        "search" => put_searched(alloc, told, &tables.variants, rest),
        "intern" => put_number(alloc, told, &mut tables.nodes, rest),
        "find" => put_found(alloc, told, &tables.nodes, rest),
        "many" => put_many(alloc, told, &mut tables.nodes, rest),
        _ => told.refuse(),
    }
}
