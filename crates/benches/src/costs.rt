//! What substitution costs: texts and variables of a size, each expanded to text.
use crate::number;
use crate::rule_env::RuleEnv;
use env_subst::Mode;
use env_vars::{EnvValue, Item};
use scons_base::limits::TEXT_LIMIT;
use scons_base::{Listing, Text};
use std::alloc::Global;
use std::io;

/// How many times sixteen bytes are the longest text that a script may hold.
const LONGEST: u32 = (TEXT_LIMIT / 16) as u32;

/// Expands what a word names, in a size.
pub fn expand(rt: &HostRuntime, what: &str, size: &str) -> io::Result<()> {
    match expanded(rt.alloc(), what, size) {
        Some(count) => rt.println(count),
        None => rt.println("refused"),
    }
}

/// How many bytes or items come of it.
fn expanded(alloc: Global, what: &str, size: &str) -> Option<usize> {
    let size = number(size)?;
    let mut env = RuleEnv::new(alloc)?;
    measured(&mut env, what, size)
}

fn measured(env: &mut RuleEnv, what: &str, size: u32) -> Option<usize> {
    let name = "N".repeat(env.alloc, size as usize).ok()?;
    set(env, what, name.as_str(), size)?;
    counted(env, what, name.as_str(), size)
}

fn counted(env: &RuleEnv, what: &str, name: &str, size: u32) -> Option<usize> {
    match what {
        "libs" => env.libraries(),
        "given" => env.items_given("ITEMS", many(env.alloc, "y$E", size)?),
        _ => bytes(env, what, name, size),
    }
}

/// How many bytes the expansion has of the text that a word names.
fn bytes(env: &RuleEnv, what: &str, name: &str, size: u32) -> Option<usize> {
    let text = text_of(env.alloc, what, name, size as usize)?;
    env.bytes_of(text.as_str(), Mode::Text)
}

/// Sets the variables that are needed. The name has so many characters.
fn set(env: &mut RuleEnv, what: &str, name: &str, size: u32) -> Option<()> {
    match what {
        "items" | "given" => set_many(env, "ITEMS", "x", size),
        "references" => set_long(env, "T", "0123456789abcdef", LONGEST),
        "names" => set_long(env, name, "a$$", size),
        "named_items" => set_many(env, name, "a$$", size),
        "called_items" => set_many(env, name, "a$E", size),
        "calls" => set_lists(env, "x", "$L", "", size),
        "items_with_calls" => set_lists(env, "x", "y${_concat(P, L", ", S, __env__)}", size),
        "libs" => {
            set_many(env, "LIBS", "$L0", 1)?;
            set_lists(env, "x$E", "$L", "", size)
        }
        _ => Some(()),
    }
}

/// Sets a list of so many items that are this text.
fn set_many(env: &mut RuleEnv, name: &str, text: &str, times: u32) -> Option<()> {
    let items = many(env.alloc, text, times)?;
    env.set(name, items)
}

/// Sets a text so many times.
fn set_long(env: &mut RuleEnv, name: &str, text: &str, times: u32) -> Option<()> {
    let long = text.repeat(env.alloc, times as usize).ok()?;
    env.set(name, EnvValue::Text(Text::new(long)))
}

/// Sets lists in each other, so many: each has an item, and then one with the number of the next list between two texts.
fn set_lists(env: &mut RuleEnv, item: &str, before: &str, behind: &str, size: u32) -> Option<()> {
    for i in 0..size {
        let next = format!(in env.alloc; "{before}{}{behind}", i.saturating_add(1)).ok()?;
        set_list(env, i, item, next.as_str())?;
    }
    Some(())
}

/// Sets the list of this number to two items.
fn set_list(env: &mut RuleEnv, number: u32, item: &str, next: &str) -> Option<()> {
    let name = format!(in env.alloc; "L{number}").ok()?;
    let mut items = Listing::empty(env.alloc);
    push(env.alloc, &mut items, item)?;
    push(env.alloc, &mut items, next)?;
    env.set(name.as_str(), EnvValue::List(items))
}

fn text_of(alloc: Global, what: &str, name: &str, size: usize) -> Option<String> {
    match what {
        "items" => String::from_str(alloc, "$ITEMS").ok(),
        "references" => "${T[0]}".repeat(alloc, size).ok(),
        "names" | "named_items" => format!(in alloc; "${name}").ok(),
        "called_items" => format!(in alloc; "${{_concat(P, {name}, S, __env__)}}").ok(),
        "dollars" => "$$".repeat(alloc, size).ok(),
        "marks" => "$(a$)".repeat(alloc, size).ok(),
        "calls" | "items_with_calls" => {
            String::from_str(alloc, "${_concat(P, L0, S, __env__)}").ok()
        }
        _ => None,
    }
}

/// So many items that are this text.
fn many(alloc: Global, text: &str, times: u32) -> Option<EnvValue> {
    let mut items = Listing::empty(alloc);
    for _ in 0..times {
        push(alloc, &mut items, text)?;
    }
    Some(EnvValue::List(items))
}

fn push(alloc: Global, items: &mut Listing<Item>, text: &str) -> Option<()> {
    let text = Text::of(alloc, text).ok()?;
    items.push(Item::Text(text)).ok()
}
