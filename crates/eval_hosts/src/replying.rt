//! A host with an object for each kind of reply, with scripts to run inside others and behind them.
ghost use Rattle.std.specs.Prelude.{◌≡◌, [], ◌∷◌, ◌++◌, IfOk, length, codes, string_bytes};
ghost use Rattle.py_heap.specs.Heap.{text_of};
ghost use Rattle.py_host.specs.declared.refusal.HostRefusal.TheVariants as refusal;
ghost use Rattle.py_host.specs.Calls.{tree_of};
ghost use Rattle.py_host.specs.Names.{with_names};
ghost use Rattle.eval_hosts.specs.Refusals.{raised};
ghost use Rattle.eval_hosts.specs.Replying.{seen, object_in, objects, number_of, told, next_of, left_of};

use crate::text::append;
use py_heap::{Heap, HostId, Value};
use py_host::{Args, Host, HostRefusal, Place, Reply, Scope};
use py_tree::Script;
use scons_base::Memory;
use std::alloc::{AllocError, Global};

#[derive(Drop)]
pub struct Replying {
    pub printed: String,
    /// The scripts that calls of `run` begin, and those behind the first one, the next ones last.
    pub inner: Vec<Script>,
    pub first: Vec<Script>,
    pub refusals: u64,
}

impl Replying {
    fn refuse(&mut self) -> HostRefusal
        ensures host { result ≡ refusal.Host }
        ensures counted { seen self.new ≡ record (seen self.old) { refusals = raised self.old.refusals } }
    {
        if self.refusals < u64::MAX {
            self.refusals += 1;
        }
        HostRefusal::Host
    }

    /// The next script that a call of `run` begins.
    fn next_inner(&mut self) -> Option<Script>
        ensures next { tree_of result ≡ next_of (seen self.old).inner }
        ensures left { seen self.new ≡ record (seen self.old) { inner = left_of (seen self.old).inner } }
    {
        self.inner.pop()
    }

    /// The next script behind the first one.
    fn next_further(&mut self) -> Option<Script>
        ensures next { tree_of result ≡ next_of (seen self.old).further }
        ensures left { seen self.new ≡ record (seen self.old) { further = left_of (seen self.old).further } }
    {
        self.first.pop()
    }
}

/// That an item was set.
fn item_line(alloc: Global, key: &str, value: &str) -> Result<String, AllocError>
    ensures { IfOk result (λ line. string_bytes line ≡ key.now ++ codes " is set to " ++ value.now ++ 10 ∷ []) }
{
    let mut line = String::from_str(alloc, key)?;
    append(&mut line, " is set to ")?;
    append(&mut line, value)?;
    append(&mut line, "\n")?;
    Ok(line)
}

/// The object of a name.
fn object(name: &str) -> Option<Value>
    ensures { result ≡ object_in objects name.now }
{
    match name {
        "value" => Some(Value::Object(HostId(0))),
        "run" => Some(Value::Object(HostId(1))),
        "names" => Some(Value::Object(HostId(2))),
        "stop" => Some(Value::Object(HostId(3))),
        "locals" => Some(Value::Object(HostId(4))),
        "globals" => Some(Value::Object(HostId(5))),
        "thing" => Some(Value::Object(HostId(6))),
        _ => None,
    }
}

/// How many names there are, as a value.
fn count_of(names: &Scope) -> Value
    ensures { result ≡ number_of (length names.now) }
{
    match i64::try_from(names.len()) {
        Ok(count) => Value::Int(count),
        Err(_) => Value::Nil,
    }
}

/// A text, and of any other value that it is none.
fn text_in(heap: &Heap, value: Value) -> &str
    ensures { result.now ≡ told (text_of heap.now value) }
{
    heap.text_of(value).unwrap_or("no text")
}

fn copied(heap: &Heap, names: &Scope) -> Result<Scope, Memory>
    ensures { IfOk result (λ copy. copy ≡ with_names [] names.now) }
{
    let mut copy = Scope::new(heap.allocator());
    copy.set_all(heap.allocator(), names)?;
    Ok(copy)
}

impl Host for Replying {
    ghost use Rattle.py_host.specs.Lent.{lent};
    ghost use Rattle.py_host.proofs.Lending.{lent_kept, lent_determined};
    ghost use Rattle.eval_hosts.specs.Replying.{seen, replying};
    ghost use Rattle.eval_hosts.specs.Laws.{replying_kept, replying_determined};

    ghost meaning = { lent seen (λ h. tt {0}) replying };

    ghost kept = { lent_kept seen (λ h. tt {0}) replying replying_kept };

    ghost determined = { lent_determined seen (λ h. tt {0}) replying replying_determined };

    fn name(&mut self, name: &str) -> Option<Value> {
        object(name)
    }

    fn call(
        &mut self,
        heap: &mut Heap,
        _place: Place,
        locals: &Scope,
        globals: &Scope,
        object: HostId,
        args: &Args,
    ) -> Result<Reply, HostRefusal> {
        match object.0 {
            0 => Ok(Reply::Value(args.positional.first().copied().unwrap_or(Value::Nil))),
            1 => match self.next_inner() {
                Some(script) => Ok(Reply::Script(script)),
                None => Err(self.refuse()),
            },
            2 => Ok(Reply::Names(copied(heap, &args.named)?)),
            3 => Ok(Reply::Return),
            4 => Ok(Reply::Value(count_of(locals))),
            5 => Ok(Reply::Value(count_of(globals))),
            _ => Err(self.refuse()),
        }
    }

    /// `run` is the object of that name, and another one the count of its bytes.
    fn attribute(
        &mut self,
        _heap: &mut Heap,
        _place: Place,
        _object: HostId,
        name: &str,
    ) -> Result<Value, HostRefusal> {
        if name == "run" {
            return Ok(Value::Object(HostId(1)));
        }
        match i64::try_from(name.len()) {
            Ok(count) => Ok(Value::Int(count)),
            Err(_) => Err(self.refuse()),
        }
    }

    fn index(
        &mut self,
        _heap: &mut Heap,
        _place: Place,
        _object: HostId,
        key: Value,
    ) -> Result<Value, HostRefusal> {
        Ok(key)
    }

    fn set_index(
        &mut self,
        heap: &mut Heap,
        _place: Place,
        _object: HostId,
        key: Value,
        value: Value,
    ) -> Result<(), HostRefusal> {
        let line = item_line(heap.allocator(), text_in(heap, key), text_in(heap, value))?;
        append(&mut self.printed, line.as_str())?;
        Ok(())
    }

    fn print(&mut self, text: &str) -> Result<(), HostRefusal> {
        append(&mut self.printed, text)?;
        Ok(())
    }

    /// The value of the name `answer`; where it isn't set and a script is left, that one.
    fn script_done(&mut self, _heap: &mut Heap, names: &Scope) -> Result<Reply, HostRefusal> {
        match names.get("answer") {
            Some(value) => Ok(Reply::Value(value)),
            None => match self.next_inner() {
                Some(script) => Ok(Reply::Script(script)),
                None => Ok(Reply::Value(Value::Nil)),
            },
        }
    }

    fn next_script(&mut self, _heap: &mut Heap) -> Result<Option<Script>, HostRefusal> {
        Ok(self.next_further())
    }
}
