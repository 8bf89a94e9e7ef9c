//! Plans that are made, and run to their end.
use crate::graphs::{SOURCES, add_chain, add_ring, add_wide, empty_graph};
use rule_graph::Graph;
use scons_base::{Listing, NodeId, RuleId};
use std::alloc::Global;
use std::io;
use std::time::Instant;
use task_plan::{Plan, PlanEvent, Want};
use trial_text::Told;

/// How many headers a source includes.
const INCLUDES: u32 = 4;

/// A step from one header to the next, so that they come in no order.
const STEP: u32 = 7;

/// How many events there may be.
const EVENTS: u64 = 100_000_000;

/// Tells what the bench of a word finds on so many rules.
pub fn put_bench(rt: &HostRuntime, told: &mut Told, word: &str, count: u32) {
    match empty_graph(rt.alloc()) {
        Some(mut graph) => put_over(rt, told, &mut graph, word, count),
        None => told.refuse(),
    }
}

/// The same over a graph that it adds the rules to.
fn put_over(rt: &HostRuntime, told: &mut Told, graph: &mut Graph, word: &str, count: u32) {
    told.show(count);
    told.put(" rules: ");
    match word {
        "run" => put_run(rt.alloc(), told, graph, count),
        "time" => put_time(rt, told, graph, count),
        "held" => put_held(rt.alloc(), told, graph, count),
        "cycle" => put_cycle(rt.alloc(), told, graph, count),
        _ => told.refuse(),
    }
    told.put("\n");
}

/// How many events a run takes in which each rule is fresh.
fn put_run(alloc: Global, told: &mut Told, graph: &mut Graph, count: u32) {
    let wanted = add_wide(alloc, told, graph, count);
    if let Some(mut plan) = plan_of(alloc, told, graph, wanted) {
        put_events(alloc, told, graph, &mut plan, count);
        told.show(format_args!("then {:?}", plan.next()));
    }
}

/// How long it takes to make the plan and to run it.
fn put_time(rt: &HostRuntime, told: &mut Told, graph: &mut Graph, count: u32) {
    let wanted = add_wide(rt.alloc(), told, graph, count);
    let start = Instant::now(rt);
    if let Some(mut plan) = plan_of(rt.alloc(), told, graph, wanted) {
        let made = micros_since(rt, told, &start);
        let events = run_plan(rt.alloc(), told, graph, &mut plan, count);
        let run = micros_since(rt, told, &start);
        told.put("made in ");
        told.show(made);
        told.put(", run by ");
        told.show(events);
        told.put(" events in ");
        told.show(run);
        told.put(" microseconds");
    }
}

/// How many rules of a chain are held where its first one fails.
fn put_held(alloc: Global, told: &mut Told, graph: &mut Graph, count: u32) {
    let wanted = add_chain(alloc, told, graph, count);
    if let Some(mut plan) = plan_of(alloc, told, graph, wanted) {
        let mut failed = Vec::new(alloc);
        fail_all(alloc, told, graph, &mut plan, &mut failed);
        told.show(failed.len());
        told.put(" failed, ");
        put_held_by(told, &plan, failed.as_slice());
    }
}

/// How long the cycle is that is found in a ring.
fn put_cycle(alloc: Global, told: &mut Told, graph: &mut Graph, count: u32) {
    let wanted = add_ring(alloc, told, graph, count);
    if let Some(mut plan) = plan_of(alloc, told, graph, wanted) {
        put_events(alloc, told, graph, &mut plan, count);
        put_cycle_of(told, &plan);
    }
}

fn plan_of(alloc: Global, told: &mut Told, graph: &Graph, wanted: NodeId) -> Option<Plan> {
    match Plan::new(alloc, graph, &[wanted]) {
        Ok(plan) => Some(plan),
        Err(_) => {
            told.refuse();
            None
        }
    }
}

fn micros_since(rt: &HostRuntime, told: &mut Told, start: &io::Result<Instant>) -> u128 {
    if let Ok(start) = start
        && let Ok(time) = start.elapsed(rt)
    {
        return time.as_micros();
    }
    told.refuse();
    0
}

fn put_events(alloc: Global, told: &mut Told, graph: &Graph, plan: &mut Plan, count: u32) {
    let events = run_plan(alloc, told, graph, plan, count);
    told.show(events);
    told.put(" events, ");
}

fn put_held_by(told: &mut Told, plan: &Plan, failed: &[RuleId]) {
    match plan.held_by(failed) {
        Ok(held) => {
            told.show(held.len());
            told.put(" held");
        }
        Err(_) => told.refuse(),
    }
}

fn put_cycle_of(told: &mut Told, plan: &Plan) {
    told.put("a cycle of ");
    match plan.cycle() {
        Ok(Some(rules)) => told.show(rules.len()),
        Ok(None) => told.put("0"),
        Err(_) => told.refuse(),
    }
}

/// Runs a plan in which each rule that is started fails, and adds those rules.
fn fail_all(
    alloc: Global,
    told: &mut Told,
    graph: &Graph,
    plan: &mut Plan,
    failed: &mut Vec<RuleId>,
) {
    for _ in 0..EVENTS {
        let event = match plan.next() {
            Want::Scan(rule, _) => PlanEvent::Scanned(rule, Listing::empty(alloc)),
            Want::Decide(rule) => {
                told.keep(failed, rule);
                PlanEvent::Started(rule)
            }
            Want::Wait => match failed.last() {
                Some(rule) => PlanEvent::DoneFailed(*rule),
                None => return,
            },
            Want::Rest => return,
        };
        if plan.step(graph, event).is_err() {
            return told.refuse();
        }
    }
}

/// Runs a plan of so many rules to its end, and says how many events that took.
fn run_plan(alloc: Global, told: &mut Told, graph: &Graph, plan: &mut Plan, count: u32) -> u64 {
    let mut at: u32 = 0;
    for events in 0..EVENTS {
        let event = match plan.next() {
            Want::Scan(rule, file) => {
                at = at.wrapping_add(STEP);
                let headers = if is_source(graph, file) {
                    count / SOURCES
                } else {
                    0
                };
                PlanEvent::Scanned(rule, headers_from(alloc, told, headers, at))
            }
            Want::Decide(rule) => PlanEvent::Fresh(rule),
            _ => return events,
        };
        if plan.step(graph, event).is_err() {
            told.refuse();
            return events;
        }
    }
    EVENTS
}

/// Some of so many headers from a place on, where the first one follows on the last one.
fn headers_from(alloc: Global, told: &mut Told, headers: u32, place: u32) -> Listing<NodeId> {
    let mut found = Vec::new(alloc);
    for further in 0..INCLUDES {
        if let Some(header) = place.wrapping_add(further).checked_rem(headers) {
            told.keep(&mut found, NodeId(header));
        }
    }
    Listing::new(found)
}

/// Whether a file includes headers.
fn is_source(graph: &Graph, file: NodeId) -> bool {
    file.0 < graph.len() && graph.path(file).suffix() == ".c"
}
