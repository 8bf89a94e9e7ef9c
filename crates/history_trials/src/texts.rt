//! The texts of a random project: its script, its sources, and what its rules make.
use crate::names::{name_of, second, spot_of, target};
use crate::numbers::Numbers;
use crate::project::{Defaults, Need, Project};
use model_trials::spots::Spot;
use scons_base::Text;
use std::alloc::Global;
use std::str;
use trial_text::Told;

/// A source that holds this makes the action fail that is given nothing else.
pub(crate) const BROKEN: &str = "/* broken */\n";

/// The script.
pub(crate) fn script_of(alloc: Global, project: &Project) -> Told {
    let mut text = Told::new(alloc);
    text.put("env = Environment(CPPPATH=['.'])\n");
    if project.is_copied {
        text.put("VariantDir('v', 'src')\n");
    }
    for rule in 0..project.rules {
        put_command(alloc, &mut text, project, rule);
        put_needs(&mut text, project, rule, Need::Depends, "env.Depends");
        put_needs(&mut text, project, rule, Need::Requires, "env.Requires");
        put_needs(&mut text, project, rule, Need::Ignored, "env.Ignore");
        if project.is_always(rule) {
            text.put_all(&["env.AlwaysBuild('", name_of(&target(rule)), "')\n"]);
        }
    }
    put_alias(&mut text, project);
    put_defaults(&mut text, project);
    text
}

fn put_command(alloc: Global, text: &mut Told, project: &Project, rule: usize) {
    text.put_all(&["env.Command(['", name_of(&target(rule)), "'"]);
    if project.has_second(rule) {
        text.put_all(&[", '", name_of(&second(rule)), "'"]);
    }
    text.put_all(&["], ['", name_of(&project.own_source(rule)), "'"]);
    for other in 0..project.rules {
        if project.need(rule, other) == Need::Source {
            text.put_all(&[", '", name_of(&target(other)), "'"]);
        }
    }
    text.put("], [");
    for line in lines_of(alloc, text, project, rule) {
        text.put_all(&["'", line.as_str(), "', "]);
    }
    text.put("])\n");
}

/// The lines of a rule's action.
pub(crate) fn lines_of(
    alloc: Global,
    told: &mut Told,
    project: &Project,
    rule: usize,
) -> Vec<Text> {
    let mut lines = Vec::new(alloc);
    keep_line(
        alloc,
        told,
        &mut lines,
        verb_of(project, rule),
        &target(rule),
        "",
    );
    if project.broken == rule {
        return lines;
    }
    for other in 0..project.rules {
        if project.need(rule, other) == Need::Emitted {
            keep_line(alloc, told, &mut lines, "#include \"", &target(other), "\"");
        }
    }
    lines
}

/// What the first line of a rule begins with.
fn verb_of(project: &Project, rule: usize) -> &'static str {
    if project.broken == rule {
        "fail "
    } else if project.changed == rule {
        "make again "
    } else {
        "make "
    }
}

/// Puts a line with the name of a path in it.
pub(crate) fn keep_line(
    alloc: Global,
    told: &mut Told,
    lines: &mut Vec<Text>,
    front: &str,
    path: &Spot,
    back: &str,
) {
    let name = name_of(path);
    match format!(in alloc; "{front}{name}{back}") {
        Ok(line) => told.keep(lines, Text::new(line)),
        Err(_) => told.refuse(),
    }
}

/// What the script says of the rules that a rule needs in one way.
fn put_needs(text: &mut Told, project: &Project, rule: usize, way: Need, call: &str) {
    for other in 0..project.rules {
        if project.need(rule, other) == way {
            let (name, needed) = (name_of(&target(rule)), name_of(&target(other)));
            text.put(call);
            text.put_all(&["('", name, "', '", needed, "')\n"]);
        }
    }
}

fn put_alias(text: &mut Told, project: &Project) {
    text.put("Alias('all', [");
    for rule in 0..project.rules {
        if project.is_in_alias(rule) {
            text.put_all(&["'", name_of(&target(rule)), "', "]);
        }
    }
    text.put("])\n");
}

fn put_defaults(text: &mut Told, project: &Project) {
    match project.defaults() {
        Defaults::Nothing => {}
        Defaults::Alias => text.put("Default('all')\n"),
        Defaults::Targets => {
            for rule in 0..project.rules {
                if project.is_default(rule) {
                    text.put_all(&["Default('", name_of(&target(rule)), "')\n"]);
                }
            }
        }
    }
}

/// A text for the source of a rule: it includes some of what earlier rules make, or may have made.
pub(crate) fn source_text(alloc: Global, numbers: &mut Numbers, rule: usize) -> Told {
    let mut text = Told::new(alloc);
    if numbers.is_one_in(12) {
        text.put(BROKEN);
        return text;
    }
    text.put("/* ");
    text.show(numbers.below(3));
    text.put(" */\n");
    for other in 0..rule {
        if numbers.is_one_in(3) {
            put_include(&mut text, &target(other));
        }
        if numbers.is_one_in(8) {
            put_include(&mut text, &second(other));
        }
    }
    text
}

fn put_include(text: &mut Told, path: &Spot) {
    text.put_all(&["#include \"", name_of(path), "\"\n"]);
}

/// The paths whose include lines stand in a content.
pub(crate) fn included_in(alloc: Global, told: &mut Told, content: &[u8]) -> Vec<Spot> {
    let mut found = Vec::new(alloc);
    let Ok(text) = str::from_utf8(content) else {
        told.refuse();
        return found;
    };
    for line in text.lines() {
        if let Some(spot) = included_by(line) {
            told.keep(&mut found, spot);
        }
    }
    found
}

/// The path that a line includes.
fn included_by(line: &str) -> Option<Spot> {
    let name = line.strip_prefix("#include \"")?;
    spot_of(name.strip_suffix("\"")?)
}

/// What these lines make at a path of dependencies with these digests.
pub(crate) fn made_text(
    alloc: Global,
    lines: &[Text],
    path: &Spot,
    given: &[(Spot, Option<Text>)],
) -> Told {
    let mut text = Told::new(alloc);
    for line in lines {
        text.put_all(&[line.as_str(), "\n"]);
    }
    text.put_all(&["-> ", name_of(path), "\n"]);
    for (spot, digest) in given {
        text.put_all(&[name_of(spot), " "]);
        match digest {
            Some(digest) => text.put(digest.as_str()),
            None => text.put("absent"),
        }
        text.put("\n");
    }
    text
}
