//! The rules whose actions run, or have ended well and have no record yet, each with the ticket for it.
ghost use Rattle.std.specs.Prelude.{◌≡◌, ◌==◌, position, ◌++◌, ◌∷◌, ◌<◌, [], List, ℕ, true, false, length, Contains, IfOk, IfSome, IfNone};
ghost use Rattle.build_run.specs.declared.tickets.Hold.{Hold};
ghost use Rattle.build_run.specs.Holds.{Busy, hold_for, holds_in, without, KeepsApart};
ghost use Rattle.build_run.specs.Outs.{ShareNone, StayOut};
ghost use Rattle.build_run.specs.Along.{HoldsFewer};

use scons_base::limits::JOB_LIMIT;
use scons_base::{Memory, PathText, Paths, RuleId};
use sign_store::{Ticket, Ticketed};
use std::alloc::Global;
use std::marker::Model;
use world_api::Job;

/// What a running job keeps to itself: its number, what it makes, and what it reads.
#[derive(Drop)]
pub(crate) struct Hold {
    pub(crate) rule: RuleId,
    pub(crate) targets: Paths,
    pub(crate) deps: Paths,
}

impl Hold {
    pub(crate) fn of(job: &Job) -> Result<Hold, Memory>
        ensures { IfOk result (λ hold. hold ≡ hold_for job.now) }
    {
        Ok(Hold {
            rule: RuleId(job.id),
            targets: job.targets.copy()?,
            deps: job.deps.copy()?,
        })
    }

    /// Whether a job makes nothing that this one makes or reads, and reads nothing that this one makes.
    fn is_apart(&self, job: &Job) -> bool
        ensures { result ≡ true → KeepsApart job.now self.now }
    {
        if self.rule.0 == job.id || shares(job.targets.as_slice(), &self.targets) {
            return false;
        }
        if shares(job.targets.as_slice(), &self.deps)
            || shares(job.deps.as_slice(), &self.targets)
        {
            return false;
        }
        true
    }
}

/// Whether one of these paths is among others.
fn shares(paths: &[PathText], others: &Paths) -> bool
    ensures { result ≡ false → (path : List ℕ) → Contains paths.now path → Contains others.now path → ⊥ }
{
    paths.iter().any(|path| others.contains(path))
}

/// A rule, with the ticket for its record.
pub(crate) type Busy = Ticketed<Hold>;

/// Rules with the tickets for their records, at most as many as there may be jobs: those that run, or those whose actions
/// ended well and whose records are held for the next group.
#[derive(Drop)]
pub(crate) struct Tickets {
    busy: Vec<Busy>,
}

impl Model for Tickets {
    ghost use Rattle.std.specs.Prelude.{List, ◌≤◌, vec_capacity};
    ghost use Rattle.build_run.specs.Holds.{Busy};

    ghost Value = { List Busy };

    ghost view = { λ t. t.busy.items };

    ghost invariant = { λ t. 64 ≤ vec_capacity t.busy };
}

impl Tickets {
    pub(crate) fn new(alloc: Global) -> Result<Tickets, Memory>
        ensures { IfOk result (λ t. t ≡ []) }
    {
        Ok(Tickets {
            busy: Vec::with_capacity(alloc, JOB_LIMIT as usize)?,
        })
    }

    pub(crate) fn len(&self) -> usize
        ensures { result ≡ length self.now }
    {
        self.busy.len()
    }

    pub(crate) fn add(&mut self, hold: Hold, ticket: Ticket)
        requires { length self.old < 64 }
        ensures { self.new ≡ self.old ++ record { hold = hold; ticket = ticket } ∷ [] }
    {
        let _ = self.busy.push(Ticketed { hold, ticket });
    }

    pub(crate) fn as_slice(&self) -> &[Busy]
        ensures { result.now ≡ self.now }
    {
        self.busy.as_slice()
    }

    /// Leaves none. Their memory stays for others.
    pub(crate) fn clear(&mut self)
        ensures { self.new ≡ [] }
    {
        self.busy.clear();
    }

    /// Whether a job makes nothing that one of these rules makes.
    pub(crate) fn make_none_of(&self, job: &Job) -> bool
        ensures { result ≡ true → (busy : Busy) → Contains self.now busy → ShareNone job.now.targets busy.hold.targets }
    {
        for busy in &self.busy {
            if shares(job.targets.as_slice(), &busy.hold.targets) {
                return false;
            }
        }
        true
    }

    /// Whether a job keeps apart from each that runs.
    pub(crate) fn are_apart(&self, job: &Job) -> bool
        ensures { result ≡ true → (hold : Hold) → Contains (holds_in self.now) hold → KeepsApart job.now hold }
    {
        for busy in &self.busy {
            if !busy.hold.is_apart(job) {
                return false;
            }
        }
        true
    }

    /// Takes out the rule with this number.
    pub(crate) fn take(&mut self, id: u32) -> Option<Busy>
        ensures left { holds_in self.new ≡ without id (holds_in self.old) }
        ensures rule { IfSome result (λ busy. busy.hold.rule.0 ≡ id) }
        ensures among { IfSome result (λ busy. Contains self.old busy) }
        ensures outs { StayOut self.old result self.new }
        ensures fewer { HoldsFewer self.old self.new }
        ensures none { IfNone result (self.new ≡ self.old) }
    {
        let place = place_of(self.busy.as_slice(), id)?;
        Some(self.busy.remove(place))
    }
}

fn place_of(busy: &[Busy], id: u32) -> Option<usize>
    ensures { result ≡ position (λ b. b.hold.rule.0 == id) busy.now }
{
    busy.iter().position(|busy| busy.hold.rule.0 == id)
}
