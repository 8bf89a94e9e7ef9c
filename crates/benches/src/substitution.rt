//! The initial `CCCOM` with 200 include directories and 500 defines, expanded in each of the three forms.
use crate::number;
use crate::rule_env::RuleEnv;
use env_subst::Mode;
use env_vars::{EnvValue, Item};
use scons_base::{Listing, Text};
use std::alloc::Global;
use std::io;

const DIRS: u32 = 200;

const DEFINES: u32 = 500;

/// Expands as often as the first argument says, or once; the second says how many times so many directories and defines there are.
pub fn expand(rt: &HostRuntime, turns: &str, times: &str) -> io::Result<()> {
    let Some((text, raw, signed)) = expanded(rt.alloc(), turns, times) else {
        return rt.println("refused");
    };
    println!(rt; "{text} bytes as text, {raw} raw, {signed} signed")
}

/// How many bytes the forms of each kind have together.
fn expanded(alloc: Global, turns: &str, times: &str) -> Option<(usize, usize, usize)> {
    let turns = number(turns)?;
    let env = environment(alloc, number(times)?)?;
    bytes_of(&env, turns)
}

fn environment(alloc: Global, times: u32) -> Option<RuleEnv> {
    let mut env = RuleEnv::new(alloc)?;
    fill(alloc, &mut env, times)?;
    Some(env)
}

fn fill(alloc: Global, env: &mut RuleEnv, times: u32) -> Option<()> {
    env.set("CPPPATH", dirs(alloc, DIRS.saturating_mul(times))?)?;
    env.set("CPPDEFINES", defines(alloc, DEFINES.saturating_mul(times))?)
}

fn bytes_of(env: &RuleEnv, turns: u32) -> Option<(usize, usize, usize)> {
    let mut text = 0usize;
    let mut raw = 0usize;
    let mut signed = 0usize;
    for _ in 0..turns {
        text = text.saturating_add(env.bytes_of("$CCCOM", Mode::Text)?);
        raw = raw.saturating_add(env.bytes_of("$CCCOM", Mode::Raw)?);
        signed = signed.saturating_add(env.bytes_of("$CCCOM", Mode::Signed)?);
    }
    Some((text, raw, signed))
}

fn dirs(alloc: Global, count: u32) -> Option<EnvValue> {
    let mut items = Listing::empty(alloc);
    for i in 0..count {
        let dir = format!(in alloc; "include/dir{i}").ok()?;
        if items.push(Item::Text(Text::new(dir))).is_err() {
            return None;
        }
    }
    Some(EnvValue::List(items))
}

fn defines(alloc: Global, count: u32) -> Option<EnvValue> {
    let mut items = Listing::empty(alloc);
    for i in 0..count {
        if items.push(define(alloc, i)?).is_err() {
            return None;
        }
    }
    Some(EnvValue::List(items))
}

fn define(alloc: Global, i: u32) -> Option<Item> {
    let name = format!(in alloc; "DEFINE{i}").ok()?;
    let value = format!(in alloc; "{i}").ok()?;
    Some(Item::Pair(Text::new(name), Some(Text::new(value))))
}
