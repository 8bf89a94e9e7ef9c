//! A host that knows no name, has no further script and keeps what is printed.
ghost use Rattle.std.specs.Prelude.{◌≡◌, ◌≢◌, ℕ, List, ◌++◌, true, false, Some, OnOk};
ghost use Rattle.py_host.specs.declared.refusal.HostRefusal.TheVariants as refusal;
ghost use Rattle.eval_hosts.specs.Printing.{refused, one_less};
ghost use Rattle.eval_hosts.specs.Texts.{Grown};

use crate::text::append;
use py_heap::{Heap, HostId, Value};
use py_host::{Args, Host, HostRefusal, Place, Reply, Scope};
use py_tree::Script;
use std::alloc::AllocError;
use std::marker::Model;

#[derive(Drop)]
pub struct Printing {
    pub printed: String,
    /// The calls that are still answered, if there is a last one.
    pub left: Option<u64>,
    pub refusals: u64,
}

impl Model for Printing {
    ghost use Rattle.std.specs.Prelude.{string_bytes};
    ghost use Rattle.eval_hosts.specs.Printing.{Printed};

    ghost Value = { Printed };

    ghost view = { λ p. record { text = string_bytes p.printed; left = p.left; refusals = p.refusals } };
}

impl Printing {
    fn refuse(&mut self) -> HostRefusal
        ensures host { result ≡ refusal.Host }
        ensures counted { self.new ≡ refused self.old }
    {
        if self.refusals < u64::MAX {
            self.refusals += 1;
        }
        HostRefusal::Host
    }

    /// Whether a further text is printed, which then is one of those that are left.
    fn may_print(&mut self) -> bool
        ensures none { result ≡ false → (self.old.left ≡ Some 0) × (self.new ≡ self.old) }
        ensures one { result ≡ true → (self.old.left ≢ Some 0)
            × (self.new ≡ record self.old { left = one_less self.old.left }) }
    {
        match self.left {
            Some(0) => false,
            Some(left) => {
                self.left = Some(left - 1);
                true
            }
            None => true,
        }
    }

    fn keep(&mut self, text: &str) -> Result<(), AllocError>
        ensures ok { OnOk result (self.new ≡ record self.old { text = self.old.text ++ text.now }) }
        ensures grown { (text : List ℕ) × (self.new ≡ record self.old { text = text }) × Grown self.old.text text }
    {
        append(&mut self.printed, text)
    }
}

impl Host for Printing {
    ghost use Rattle.eval_hosts.specs.Printing.{printing};
    ghost use Rattle.eval_hosts.specs.Laws.{printing_kept, printing_determined};

    ghost meaning = { printing };

    ghost kept = { printing_kept };

    ghost determined = { printing_determined };

    fn name(&mut self, _name: &str) -> Option<Value> {
        None
    }

    fn call(
        &mut self,
        _heap: &mut Heap,
        _place: Place,
        _locals: &Scope,
        _globals: &Scope,
        _object: HostId,
        _args: &Args,
    ) -> Result<Reply, HostRefusal> {
        Err(self.refuse())
    }

    fn attribute(
        &mut self,
        _heap: &mut Heap,
        _place: Place,
        _object: HostId,
        _name: &str,
    ) -> Result<Value, HostRefusal> {
        Err(self.refuse())
    }

    fn index(
        &mut self,
        _heap: &mut Heap,
        _place: Place,
        _object: HostId,
        _key: Value,
    ) -> Result<Value, HostRefusal> {
        Err(self.refuse())
    }

    fn set_index(
        &mut self,
        _heap: &mut Heap,
        _place: Place,
        _object: HostId,
        _key: Value,
        _value: Value,
    ) -> Result<(), HostRefusal> {
        Err(self.refuse())
    }

    fn print(&mut self, text: &str) -> Result<(), HostRefusal> {
        if !self.may_print() {
            return Err(self.refuse());
        }
        self.keep(text)?;
        Ok(())
    }

    fn script_done(&mut self, _heap: &mut Heap, _names: &Scope) -> Result<Reply, HostRefusal> {
        Err(self.refuse())
    }

    fn next_script(&mut self, _heap: &mut Heap) -> Result<Option<Script>, HostRefusal> {
        Ok(None)
    }
}
