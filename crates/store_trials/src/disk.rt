//! Two banks in memory, which may claim to be larger than they are, and may refuse all calls from some call on. Their
//! contracts tell nothing of them.
ghost use Rattle.std.specs.Prelude.{ℕ, ◌≡◌, ◌+◌, ◌-◌, ◌^◌, min};
ghost use Rattle.world_api.specs.Causes.{DiskFails};
ghost use Rattle.store_trials.specs.Silent.{silent, counts_of};

use std::alloc::Global;
use trial_text::Told;
use world_api::{Bank, Disk, Fault};

#[derive(Drop)]
pub(crate) struct Banks {
    a: Vec<u8>,
    b: Vec<u8>,
    /// The size that a bank says it has, in place of its own.
    claim: Option<(Bank, u64)>,
    /// How many calls are answered before all are refused.
    calls_left: Option<u64>,
    faults: u64,
}

impl Banks {
    pub(crate) fn new(alloc: Global) -> Banks {
        Banks::of(Vec::new(alloc), Vec::new(alloc))
    }

    /// Banks of these bytes.
    pub(crate) fn of(a: Vec<u8>, b: Vec<u8>) -> Banks {
        Banks {
            a,
            b,
            claim: None,
            calls_left: None,
            faults: 0,
        }
    }

    /// Banks of the same bytes.
    pub(crate) fn copy(&self, alloc: Global, told: &mut Told) -> Banks {
        Banks::of(
            copy_of(alloc, told, self.a.as_slice()),
            copy_of(alloc, told, self.b.as_slice()),
        )
    }

    pub(crate) fn bytes(&self, bank: Bank) -> &[u8] {
        match bank {
            Bank::A => self.a.as_slice(),
            Bank::B => self.b.as_slice(),
        }
    }

    /// Puts other bytes into a bank. No bank claims another size from then on.
    pub(crate) fn set(&mut self, bank: Bank, bytes: Vec<u8>) {
        self.claim = None;
        match bank {
            Bank::A => self.a = bytes,
            Bank::B => self.b = bytes,
        }
    }

    /// Lets a bank say that it has so many bytes.
    pub(crate) fn claim(&mut self, bank: Bank, size: u64) {
        self.claim = Some((bank, size));
    }

    /// Answers so many calls, and refuses all behind them.
    pub(crate) fn stop_after(&mut self, calls: u64) {
        self.calls_left = Some(calls);
    }

    /// Answers all calls.
    pub(crate) fn go_on(&mut self) {
        self.calls_left = None;
    }

    /// Counts a call, and says whether it is answered.
    fn answers(&mut self) -> bool
        ensures { self.new.faults ≡ self.old.faults }
    {
        match self.calls_left {
            None => true,
            Some(0) => false,
            Some(calls) => {
                self.calls_left = Some(calls - 1);
                true
            }
        }
    }

    fn size_of(&self, bank: Bank) -> u64 {
        match self.claim {
            Some((claiming, size)) if claiming == bank => size,
            _ => self.bytes(bank).len() as u64,
        }
    }

    /// Writes bytes at a place of a bank that isn't behind its end.
    fn write(&mut self, bank: Bank, place: usize, bytes: &[u8]) -> Result<(), Fault>
        ensures { self.new.faults ≡ self.old.faults }
    {
        match bank {
            Bank::A => write(&mut self.a, place, bytes),
            Bank::B => write(&mut self.b, place, bytes),
        }
    }

    fn fails(&mut self) -> Fault
        ensures { DiskFails (counts_of self.old.faults) (counts_of self.new.faults) }
    {
        self.faults = self.faults.saturating_add(1);
        Fault
    }
}

fn write(bank: &mut Vec<u8>, place: usize, bytes: &[u8]) -> Result<(), Fault> {
    let mut at = place;
    for byte in bytes {
        match bank.get_mut(at) {
            Some(held) => *held = *byte,
            None => {
                if bank.push(*byte).is_err() {
                    return Err(Fault);
                }
            }
        }
        at = at.saturating_add(1);
    }
    Ok(())
}

/// The same bytes once more. Where memory is short for them there are none, and the line is refused.
pub(crate) fn copy_of(alloc: Global, told: &mut Told, bytes: &[u8]) -> Vec<u8> {
    match Vec::from_slice(alloc, bytes) {
        Ok(copy) => copy,
        Err(_) => {
            told.refuse();
            Vec::new(alloc)
        }
    }
}

impl Disk for Banks {
    ghost meaning = { silent (λ disk. disk.faults) };

    ghost reads_as = { λ disk tells. absurd tells };

    ghost counts_now = { λ disk tells. absurd tells };

    ghost only_now = { λ disk tells. absurd tells };

    fn size(&mut self, bank: Bank) -> Result<u64, Fault> {
        if !self.answers() {
            return Err(self.fails());
        }
        Ok(self.size_of(bank))
    }

    fn read_at(&mut self, bank: Bank, place: u64, into: &mut [u8]) -> Result<(), Fault> {
        if !self.answers() {
            return Err(self.fails());
        }
        let held = self.bytes(bank);
        let place = place as usize;
        if held.len() < place || held.len() - place < into.len() {
            return Err(self.fails());
        }
        let len = into.len();
        into.copy_from_slice(&held[place..place + len]);
        Ok(())
    }

    fn write_at(&mut self, bank: Bank, place: u64, bytes: &[u8]) -> Result<(), Fault> {
        if !self.answers() || self.write(bank, place as usize, bytes).is_err() {
            return Err(self.fails());
        }
        Ok(())
    }

    fn sync(&mut self, _: Bank) -> Result<(), Fault> {
        if !self.answers() {
            return Err(self.fails());
        }
        Ok(())
    }
}
