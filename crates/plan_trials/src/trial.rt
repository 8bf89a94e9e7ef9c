//! Plans of a row's graphs, which are run every way beside the slow functions.
use crate::cases::{Case, RULES, is_first_of_its_kind};
use crate::choices::Choices;
use crate::facts::Facts;
use crate::graphs::{add_paths, add_rule, empty_graph, nodes_of, spot_of};
use crate::plain::plain_rule;
use crate::progress::Progress;
use crate::row::Row;
use crate::tally::Tally;
use model_trials::reach::{PlainRule, Scan};
use rule_graph::Graph;
use scons_base::{Listing, NodeId, RuleId};
use std::alloc::Global;
use task_plan::{Plan, PlanEvent, RuleState, Want};
use trial_text::Told;

/// How many graphs there are, with all names of rules.
const CODES: u32 = 65_536;

/// More ways than a graph has.
const WAYS: u32 = 1_000_000;

/// More events than a run has.
const EVENTS: usize = 100;

/// What is wrong with a plan, where something is.
pub type Wrong = Option<&'static str>;

/// A graph and its facts, how far its run is, and what was tried.
#[derive(Drop)]
pub struct Trial<'a> {
    alloc: Global,
    case: Case<'a>,
    /// The rules of the graph, and the files that were scanned for them.
    pub rules: Vec<PlainRule>,
    pub facts: Facts,
    /// Something was scanned since the facts were taken.
    pub is_old: bool,
    pub progress: Progress,
    choices: Choices,
    jobs: usize,
    tally: Tally,
}

/// Tries all graphs in the way of a row, and tells how many there were, or what is wrong first.
pub fn put_graphs(alloc: Global, told: &mut Told, line: &str) {
    let mut trial = Trial::new(alloc, Row::read(told, line));
    trial.put_all(told);
}

impl<'a> Trial<'a> {
    fn new(alloc: Global, row: Row<'a>) -> Trial<'a> {
        Trial {
            alloc,
            case: Case { code: 0, row },
            rules: Vec::new(alloc),
            facts: Facts::new(alloc),
            is_old: true,
            progress: Progress::new(),
            choices: Choices::new(alloc),
            jobs: 0,
            tally: Tally::new(),
        }
    }

    fn put_all(&mut self, told: &mut Told) {
        let mut kinds: u32 = 0;
        for code in 0..CODES {
            if !is_first_of_its_kind(code) {
                continue;
            }
            kinds = kinds.wrapping_add(1);
            if self.case.row.tries(kinds)
                && let Some(wrong) = self.try_graph(told, code)
            {
                return told.show(format_args!(" graph {code:x}: {wrong}"));
            }
        }
        self.tally.put(told);
    }

    fn try_graph(&mut self, told: &mut Told, code: u32) -> Wrong {
        self.tally.graphs = self.tally.graphs.wrapping_add(1);
        self.case.code = code;
        match empty_graph(self.alloc) {
            Some(mut graph) => {
                self.fill(told, &mut graph);
                self.try_jobs(told, &graph)
            }
            None => {
                told.refuse();
                None
            }
        }
    }

    /// Takes in the rules of the graph, as such and as plain lists.
    fn fill(&mut self, told: &mut Told, graph: &mut Graph) {
        self.rules.clear();
        add_paths(self.alloc, told, graph);
        for number in 0..RULES {
            let rule = plain_rule(self.alloc, told, &self.case, number);
            add_rule(self.alloc, told, graph, &rule);
            told.keep(&mut self.rules, rule);
        }
    }

    /// Runs the graph at one, two and three jobs.
    fn try_jobs(&mut self, told: &mut Told, graph: &Graph) -> Wrong {
        for jobs in 1..4 {
            self.jobs = jobs;
            let wrong = self.try_ways(told, graph);
            if wrong.is_some() {
                return wrong;
            }
            if jobs == 1 && self.facts.is_cyclic {
                self.tally.cyclic = self.tally.cyclic.wrapping_add(1);
            }
        }
        None
    }

    /// Runs the graph every way.
    fn try_ways(&mut self, told: &mut Told, graph: &Graph) -> Wrong {
        for _ in 0..WAYS {
            self.tally.ways = self.tally.ways.wrapping_add(1);
            let wrong = self.run(told, graph);
            if wrong.is_some() || !self.choices.advance(told) {
                return wrong;
            }
        }
        Some("there is no end of ways")
    }

    /// Runs a plan one way to its end.
    fn run(&mut self, told: &mut Told, graph: &Graph) -> Wrong {
        self.begin();
        match Plan::new(self.alloc, graph, &[NodeId(0)]) {
            Ok(mut plan) => self.run_plan(told, graph, &mut plan),
            Err(_) => {
                told.refuse();
                None
            }
        }
    }

    /// From here on nothing has happened, and no file is scanned.
    fn begin(&mut self) {
        self.progress = Progress::new();
        self.is_old = true;
        for rule in &mut self.rules {
            rule.scans.clear();
        }
    }

    /// Compares the plan wherever this way is new, and goes on until no event may come.
    fn run_plan(&mut self, told: &mut Told, graph: &Graph, plan: &mut Plan) -> Wrong {
        for _ in 0..EVENTS {
            let want = plan.next();
            let wrong = self.compare_new(told, plan, want);
            if wrong.is_some() || !self.go_on(told, graph, plan, want) {
                return wrong;
            }
        }
        Some("there is no end of events")
    }

    fn compare_new(&mut self, told: &mut Told, plan: &Plan, want: Want) -> Wrong {
        if !self.choices.is_new() {
            return None;
        }
        self.tally.states = self.tally.states.wrapping_add(1);
        if self.is_old {
            self.is_old = false;
            self.facts.take(self.alloc, told, self.rules.as_slice());
        }
        self.compare(told, plan, want)
    }

    /// Tells the plan one of the events that may come. Says whether there is one.
    fn go_on(&mut self, told: &mut Told, graph: &Graph, plan: &mut Plan, want: Want) -> bool {
        let answers = self.answers(want);
        let ends = self.ends(answers);
        let halts = usize::from(self.case.row.halts && !self.progress.halted);
        let count = answers.wrapping_add(ends).wrapping_add(halts);
        if count == 0 {
            return false;
        }
        self.tally.events = self.tally.events.wrapping_add(1);
        let picked = self.choices.pick(told, count);
        let event = if picked < answers {
            self.answer(told, want, picked)
        } else if picked < answers.wrapping_add(ends) {
            self.ending(picked.wrapping_sub(answers))
        } else {
            PlanEvent::Halt
        };
        self.progress.note(&event);
        if plan.step(graph, event).is_err() {
            told.refuse();
        }
        true
    }

    /// How many answers to a want there are.
    fn answers(&self, want: Want) -> usize {
        match want {
            Want::Scan(..) => 1,
            Want::Decide(_) if self.progress.running() < self.jobs => self.case.row.decisions(),
            _ => 0,
        }
    }

    /// How many endings of actions there are beside so many answers.
    fn ends(&self, answers: usize) -> usize {
        if answers > 0 && !self.case.row.early {
            return 0;
        }
        self.progress.running().wrapping_mul(self.case.row.ends())
    }

    /// One of the answers to a want: a file is scanned, or a rule is started, or fresh, or lacks a file.
    fn answer(&mut self, told: &mut Told, want: Want, picked: usize) -> PlanEvent {
        match want {
            Want::Scan(rule, file) => PlanEvent::Scanned(rule, self.scan(told, rule, file)),
            Want::Decide(rule) if picked == 0 => PlanEvent::Started(rule),
            Want::Decide(rule) if picked == 1 && self.case.row.fresh => PlanEvent::Fresh(rule),
            Want::Decide(rule) => PlanEvent::Absent(rule, NodeId(RULES)),
            _ => PlanEvent::Halt,
        }
    }

    /// Notes that a file is scanned for a rule, and gives what it includes.
    fn scan(&mut self, told: &mut Told, rule: RuleId, file: NodeId) -> Listing<NodeId> {
        let includes = self.case.includes(self.alloc, told, rule, file);
        let nodes = nodes_of(self.alloc, told, includes.as_slice());
        let file = spot_of(file);
        if let Some(rule) = self.rules.get_mut(rule.0 as usize) {
            told.keep(&mut rule.scans, Scan { file, includes });
        }
        self.is_old = true;
        nodes
    }

    /// The ending of this number, and behind all endings a halt.
    fn ending(&self, number: usize) -> PlanEvent {
        let ways = self.case.row.ends();
        let mut before = number / ways;
        for rule in 0..RULES {
            if self.progress.is(rule as usize, RuleState::Running) {
                if before == 0 {
                    return ended(RuleId(rule), number % ways);
                }
                before = before.wrapping_sub(1);
            }
        }
        PlanEvent::Halt
    }
}

fn ended(rule: RuleId, way: usize) -> PlanEvent {
    if way == 0 {
        PlanEvent::DoneOk(rule)
    } else {
        PlanEvent::DoneFailed(rule)
    }
}
