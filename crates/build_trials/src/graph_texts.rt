//! The script of a small graph, what its files hold, and what its rules make of that.
use crate::small::{MOST_RULES, Need, Small, name_of, source, source_file, target};
use model_trials::spots::Spot;
use scons_base::Blob;
use std::alloc::Global;
use std::str;
use trial_text::Told;

/// A script with the rules of a graph, each with its own source.
pub(crate) fn script_of(alloc: Global, graph: &Small) -> Told {
    let mut text = Told::new(alloc);
    text.put("env = Environment(CPPPATH=['.'])\n");
    if graph.shape.copied {
        text.put("VariantDir('v', 'src')\n");
    }
    for rule in 0..graph.shape.rules {
        put_command(&mut text, graph, rule);
        put_needs(&mut text, graph, rule, Need::Depends, "env.Depends");
        put_needs(&mut text, graph, rule, Need::Requires, "env.Requires");
        put_needs(&mut text, graph, rule, Need::Ignored, "env.Ignore");
    }
    text
}

/// A rule that writes its lines.
fn put_command(text: &mut Told, graph: &Small, rule: usize) {
    let name = name_of(false, &target(rule));
    let own = name_of(graph.shape.copied, &source(rule));
    text.put_all(&["env.Command('", name, "', ['", own, "'"]);
    for other in 0..graph.shape.rules {
        if graph.need(rule, other) == Need::Source {
            text.put_all(&[", '", name_of(false, &target(other)), "'"]);
        }
    }
    text.put_all(&["], ['make ", name, "'"]);
    for other in 0..graph.shape.rules {
        if graph.need(rule, other) == Need::Emitted {
            text.put_all(&[", '", include_of(other), "'"]);
        }
    }
    text.put("])\n");
}

/// What the script says of the rules that a rule needs in one way.
fn put_needs(text: &mut Told, graph: &Small, rule: usize, way: Need, call: &str) {
    for other in 0..graph.shape.rules {
        if graph.need(rule, other) == way {
            let (name, needed) = (
                name_of(false, &target(rule)),
                name_of(false, &target(other)),
            );
            text.put(call);
            text.put_all(&["('", name, "', '", needed, "')\n"]);
        }
    }
}

/// The line that includes what a rule makes.
fn include_of(rule: usize) -> &'static str {
    match rule {
        0 => "#include \"t0.h\"",
        1 => "#include \"t1.h\"",
        2 => "#include \"t2.h\"",
        _ => "#include \"t3.h\"",
    }
}

/// What the source of a rule holds: an edit has its number in it, and one without includes has none.
pub(crate) fn source_text(
    alloc: Global,
    graph: &Small,
    rule: usize,
    edit: u32,
    includes: bool,
) -> Told {
    let mut text = Told::new(alloc);
    text.put("/* ");
    text.show(edit);
    text.put(" */\n");
    for other in 0..graph.shape.rules {
        let is_found = matches!(graph.need(rule, other), Need::Found | Need::Ignored);
        if includes && is_found {
            text.put_all(&[include_of(other), "\n"]);
        }
    }
    text
}

/// The files whose include lines stand in a content.
pub(crate) fn included_in(alloc: Global, told: &mut Told, content: &[u8]) -> Vec<Spot> {
    let mut found = Vec::new(alloc);
    let Ok(text) = str::from_utf8(content) else {
        told.refuse();
        return found;
    };
    for line in text.lines() {
        for rule in 0..MOST_RULES {
            if line == include_of(rule) {
                told.keep(&mut found, target(rule));
            }
        }
    }
    found
}

/// What the rule of a number makes of dependencies with these digests.
pub(crate) fn made_text(
    alloc: Global,
    graph: &Small,
    rule: usize,
    given: &[(Spot, String)],
) -> Told {
    let name = name_of(false, &target(rule));
    let mut text = Told::new(alloc);
    text.put_all(&["make ", name, "\n"]);
    for other in 0..graph.shape.rules {
        if graph.need(rule, other) == Need::Emitted {
            text.put_all(&[include_of(other), "\n"]);
        }
    }
    text.put_all(&["-> ", name, "\n"]);
    for (spot, digest) in given {
        let needed = name_of(graph.shape.copied, spot);
        text.put_all(&[needed, " "]);
        text.put(digest.as_str());
        text.put("\n");
    }
    text
}

/// The file of a rule's source, with what stands there at first.
pub(crate) fn first_source(
    alloc: Global,
    graph: &Small,
    rule: usize,
) -> Option<(&'static str, Blob)> {
    let text = source_text(alloc, graph, rule, 0, true);
    let bytes = Blob::of(alloc, text.as_str().as_bytes()).ok()?;
    Some((source_file(graph.shape.copied, rule), bytes))
}
