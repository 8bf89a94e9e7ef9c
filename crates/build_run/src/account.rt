//! What a build has to report.

use build_files::ListEnd;
use rule_graph::BuildFault;
use scons_base::{Memory, RuleId};
use scons_report::fault_text;
use std::alloc::Global;
use world_api::{Sink, print};

/// What was found so far. A sink or a store that refused isn't called again.
#[derive(Drop)]
pub(crate) struct Account {
    pub(crate) faults: Vec<BuildFault>,
    /// The rules of the faults after which a build may go on.
    pub(crate) faulty: Vec<RuleId>,
    pub(crate) started: Vec<RuleId>,
    pub(crate) is_out_shut: bool,
    pub(crate) is_err_shut: bool,
    pub(crate) is_store_shut: bool,
    /// Whether a fault came after which nothing new starts.
    pub(crate) is_ended: bool,
    pub(crate) memory: bool,
    pub(crate) alloc: Global,
}

impl Account {
    ghost use Rattle.std.specs.Prelude.{◌≡◌, true, false, string_bytes};
    ghost use Rattle.build_run.specs.Along.{is_faulted, IsEnd, KeepsEnds};
    ghost use Rattle.build_run.specs.Endings.{KeepsWant};
    ghost use Rattle.build_run.specs.Faulted.{AddsEnd, AddsFault, AddsOut};
    ghost use Rattle.build_run.specs.FaultTexts.{KeepsFault, KeepsTold, SameTold, Shows, ShowsIf};
    ghost use Rattle.build_run.specs.Ledgers.{ledger_of, blank, wanting, with_fault, with_end, Keeps, Reports};
    ghost use Rattle.rule_graph.specs.declared.build_fault.BuildFault.{BuildFault};
    ghost use Rattle.build_run.specs.Noted.{IsKeptIn, KeepsFaults, KeepsNoted, NotesRule};
    ghost use Rattle.build_run.specs.Reasons.{IsLast, IsLastEnd, IsReasoned, KeepsReason, StaysReasoned};

    pub(crate) fn new(alloc: Global) -> Account
        ensures ledger { ledger_of result ≡ blank }
        ensures ended { result.is_ended ≡ false }
        ensures unshut { result.is_err_shut ≡ false }
    {
        Account {
            faults: Vec::new(alloc),
            faulty: Vec::new(alloc),
            started: Vec::new(alloc),
            is_out_shut: false,
            is_err_shut: false,
            is_store_shut: false,
            is_ended: false,
            memory: false,
            alloc,
        }
    }

    /// Nothing new starts any more.
    #[tactic(auto, using(crate::proofs::Noting::noting))]
    pub(crate) fn end<E: Sink>(&mut self, err: &mut E, end: ListEnd)
        ensures reports { Reports E.meaning err.old self.old (with_end (ledger_of self.old) end) err.new self.new }
        ensures ends { IsEnd self.new }
        ensures memory { end ≡ ListEnd.Memory → self.new.memory ≡ true }
        ensures reason { IsLastEnd end → IsReasoned self.new }
        ensures texts { KeepsTold E.meaning err.old self.old err.new self.new }
        ensures noted { KeepsNoted self.old self.new }
        ensures want { KeepsWant self.old self.new }
        ensures lists { AddsEnd self.old end self.new }
    {
        self.is_ended = true;
        match end {
            ListEnd::Fault(fault) => self.report(err, fault),
            ListEnd::Memory => self.want_memory(),
        }
    }

    /// A rule is at fault, and others may go on where that was asked.
    #[tactic(auto, using(crate::proofs::Noting::noting))]
    pub(crate) fn fail<E: Sink>(
        &mut self,
        err: &mut E,
        rule: RuleId,
        fault: BuildFault,
        goes_on: bool,
    )
        ensures reports { Reports E.meaning err.old self.old (with_fault (ledger_of self.old) fault) err.new self.new }
        ensures ends { KeepsEnds self.old self.new }
        ensures faulted { is_faulted self.new ≡ true }
        ensures goes { self.new.is_ended ≡ false → goes_on ≡ true }
        ensures reason { KeepsReason goes_on self.old self.new }
        ensures texts { KeepsTold E.meaning err.old self.old err.new self.new }
        ensures noted { KeepsNoted self.old self.new }
        ensures want { KeepsWant self.old self.new }
        ensures notes { NotesRule self.new rule.0 fault }
        ensures lists { AddsFault self.old fault self.new }
    {
        self.report(err, fault);
        self.note_faulty(rule);
        self.is_ended |= !goes_on;
    }

    /// Keeps a fault and prints it.
    #[tactic(auto, using(crate::proofs::Noting::noting))]
    pub(crate) fn report<E: Sink>(&mut self, err: &mut E, fault: BuildFault)
        ensures reports { Reports E.meaning err.old self.old (with_fault (ledger_of self.old) fault) err.new self.new }
        ensures ends { KeepsEnds self.old self.new }
        ensures faulted { is_faulted self.new ≡ true }
        ensures reason { StaysReasoned self.old self.new }
        ensures texts { KeepsTold E.meaning err.old self.old err.new self.new }
        ensures last { IsLast fault → IsReasoned self.new }
        ensures noted { KeepsNoted self.old self.new }
        ensures want { KeepsWant self.old self.new }
        ensures kept { IsKeptIn self.new fault }
        ensures lists { AddsFault self.old fault self.new }
    {
        let text = fault_text(self.alloc, &fault);
        self.keep(fault);
        self.show(err, text);
    }

    /// Prints a text, unless standard error has refused before. Want of memory for it is noted.
    #[tactic(auto, using(crate::proofs::Noting::noting))]
    fn show<E: Sink>(&mut self, err: &mut E, text: Result<String, Memory>)
        ensures reports { Reports E.meaning err.old self.old (ledger_of self.old) err.new self.new }
        ensures ends { KeepsEnds self.old self.new }
        ensures reason { StaysReasoned self.old self.new }
        ensures shows { ShowsIf E.meaning err.old self.old (λ s. string_bytes s) text err.new self.new }
        ensures noted { KeepsNoted self.old self.new }
        ensures faults { KeepsFaults self.old self.new }
        ensures lists { AddsOut self.old.faults.items self.new.faults.items }
    {
        if self.is_err_shut {
            return;
        }
        match text {
            Ok(text) => self.write(err, text.as_str()),
            Err(_) => self.want_memory(),
        }
    }

    /// Prints a text. A sink that refuses is noted.
    #[tactic(auto, using(crate::proofs::Noting::noting))]
    fn write<E: Sink>(&mut self, err: &mut E, text: &str)
        ensures reports { Reports E.meaning err.old self.old (ledger_of self.old) err.new self.new }
        ensures ends { KeepsEnds self.old self.new }
        ensures reason { StaysReasoned self.old self.new }
        ensures shows { self.old.is_err_shut ≡ false → Shows E.meaning err.old self.old text.now err.new self.new }
        ensures noted { KeepsNoted self.old self.new }
        ensures faults { KeepsFaults self.old self.new }
        ensures lists { AddsOut self.old.faults.items self.new.faults.items }
    {
        match print(err, text) {
            Ok(()) => {}
            Err(_) => {
                self.is_err_shut = true;
                self.is_ended = true;
                self.keep(BuildFault::OutFault);
            }
        }
    }

    #[tactic(auto, using(crate::proofs::Noting::noting))]
    fn keep(&mut self, fault: BuildFault)
        ensures keeps { Keeps self.old (with_fault (ledger_of self.old) fault) self.new }
        ensures ends { KeepsEnds self.old self.new }
        ensures faulted { is_faulted self.new ≡ true }
        ensures reason { StaysReasoned self.old self.new }
        ensures adds { KeepsFault self.old fault self.new }
        ensures last { IsLast fault → IsReasoned self.new }
        ensures noted { KeepsNoted self.old self.new }
        ensures faults { KeepsFaults self.old self.new }
        ensures kept { IsKeptIn self.new fault }
        ensures lists { AddsFault self.old fault self.new }
    {
        match self.faults.push(fault) {
            Ok(()) => {}
            Err(_) => self.want_memory(),
        }
    }

    #[tactic(auto, using(crate::proofs::Noting::noting))]
    pub(crate) fn want_memory(&mut self)
        ensures ledger { ledger_of self.new ≡ wanting (ledger_of self.old) }
        ensures ends { IsEnd self.new }
        ensures memory { self.new.memory ≡ true }
        ensures reason { IsReasoned self.new }
        ensures same { SameTold self.old self.new }
        ensures noted { KeepsNoted self.old self.new }
        ensures faults { KeepsFaults self.old self.new }
    {
        self.memory = true;
        self.is_ended = true;
    }

    #[tactic(auto, using(crate::proofs::Noting::noting))]
    fn note_faulty(&mut self, rule: RuleId)
        ensures keeps { Keeps self.old (ledger_of self.old) self.new }
        ensures ends { KeepsEnds self.old self.new }
        ensures reason { StaysReasoned self.old self.new }
        ensures same { SameTold self.old self.new }
        ensures noted { KeepsNoted self.old self.new }
        ensures notes { (f : BuildFault) → IsKeptIn self.old f → NotesRule self.new rule.0 f }
    {
        match self.faulty.push(rule) {
            Ok(()) => {}
            Err(_) => self.want_memory(),
        }
    }

    #[tactic(auto, using(crate::proofs::Noting::noting))]
    pub(crate) fn note_start(&mut self, rule: RuleId)
        ensures keeps { Keeps self.old (ledger_of self.old) self.new }
        ensures ends { KeepsEnds self.old self.new }
        ensures reason { StaysReasoned self.old self.new }
        ensures same { SameTold self.old self.new }
        ensures noted { KeepsNoted self.old self.new }
    {
        match self.started.push(rule) {
            Ok(()) => {}
            Err(_) => self.want_memory(),
        }
    }
}
