//! Things that a heap is given from outside scripts. They cost no units.
ghost use Rattle.std.specs.Prelude.{◌≡◌, ◌≢◌, ◌++◌, [], Ok, Err, IfOk, IfErr, OnErr, Some, None, MatchOption, length, option_copied};
ghost use Rattle.py_heap.specs.Given.{given_text, given_list, given_tuple, given_dict, given_object, with_pairs, unkeyed};
ghost use Rattle.py_heap.specs.Dicts.{key_of, missing};

use crate::dict::Dict;
use crate::fault::ValueFault;
use crate::heap::Heap;
use crate::ids::HostId;
use crate::key::Key;
use crate::kind::ValueKind;
use crate::value::Value;
use crate::values::Values;
use scons_base::limits::{LIST_LIMIT, TEXT_LIMIT};
use scons_base::{Memory, Text};

impl Heap {
    #[tactic(auto, using(crate::proofs::Rooms::rooms))]
    pub fn text(&mut self, text: &str) -> Result<Value, ValueFault>
        ensures ok { IfOk result (λ v. given_text self.old text.now ≡ Ok (v, self.new)) }
        ensures fault { IfErr result (λ e. e ≢ ValueFault.Memory → given_text self.old text.now ≡ Err e) }
        ensures err { OnErr result (self.new ≡ self.old) }
    {
        let length = text.len() as u64;
        if length > TEXT_LIMIT {
            return Err(ValueFault::TooBig(length));
        }
        let made = Text::of(self.alloc, text)?;
        let value = self.add_text(made)?;
        Ok(value)
    }

    #[tactic(auto, using(crate::proofs::Rooms::rooms))]
    pub fn list(&mut self, items: &[Value]) -> Result<Value, ValueFault>
        ensures ok { IfOk result (λ v. given_list self.old items.now ≡ Ok (v, self.new)) }
        ensures fault { IfErr result (λ e. e ≢ ValueFault.Memory → given_list self.old items.now ≡ Err e) }
        ensures err { OnErr result (self.new ≡ self.old) }
    {
        let length = items.len() as u64;
        if length > LIST_LIMIT {
            return Err(ValueFault::TooBig(length));
        }
        let made = Values::of(self.alloc, items)?;
        let value = self.add_list(made)?;
        Ok(value)
    }

    #[tactic(auto, using(crate::proofs::Rooms::rooms))]
    pub fn tuple(&mut self, items: &[Value]) -> Result<Value, ValueFault>
        ensures ok { IfOk result (λ v. given_tuple self.old items.now ≡ Ok (v, self.new)) }
        ensures fault { IfErr result (λ e. e ≢ ValueFault.Memory → given_tuple self.old items.now ≡ Err e) }
        ensures err { OnErr result (self.new ≡ self.old) }
    {
        let length = items.len() as u64;
        if length > LIST_LIMIT {
            return Err(ValueFault::TooBig(length));
        }
        let made = Values::of(self.alloc, items)?;
        let value = self.add_tuple(made)?;
        Ok(value)
    }

    /// A dict of pairs of a key and an item. Of a key that comes twice the last item counts.
    #[tactic(auto, using(crate::proofs::Rooms::rooms))]
    pub fn dict(&mut self, pairs: &[(Value, Value)]) -> Result<Value, ValueFault>
        ensures ok { IfOk result (λ v. given_dict self.old pairs.now ≡ Ok (v, self.new)) }
        ensures fault { IfErr result (λ e. e ≢ ValueFault.Memory → given_dict self.old pairs.now ≡ Err e) }
        ensures err { OnErr result (self.new ≡ self.old) }
    {
        let Some(made) = self.dict_from(pairs)? else {
            return Err(ValueFault::KeyKind(self.unkeyed(pairs)?));
        };
        let length = made.len() as u64;
        if length > LIST_LIMIT {
            return Err(ValueFault::TooBig(length));
        }
        let value = self.add_dict(made)?;
        Ok(value)
    }

    fn dict_from(&self, pairs: &[(Value, Value)]) -> Result<Option<Dict>, Memory>
        ensures { IfOk result (λ d. d ≡ with_pairs self.now [] pairs.now) }
    {
        let mut dict = Dict::new(self.alloc);
        'pairs: for (given, item) in pairs {
            match self.key_of(*given)? {
                Some(key) => dict.put(key, *given, *item)?,
                None => return Ok(None),
            }
        }
        Ok(Some(dict))
    }

    /// The kind of the first value that stands as a key and can't be one.
    fn unkeyed(&self, pairs: &[(Value, Value)]) -> Result<ValueKind, Memory>
        ensures { IfOk result (λ kind. kind ≡ unkeyed self.now pairs.now) }
    {
        'pairs: for (given, _) in pairs {
            if self.key_of(*given)?.is_none() {
                return Ok(given.kind());
            }
        }
        Ok(ValueKind::Nil)
    }

    /// The fault that a value isn't found, which names it.
    pub fn missing(&self, value: Value) -> Result<ValueFault, Memory>
        ensures { IfOk result (λ fault. fault ≡ missing self.now value) }
    {
        Ok(match self.key_of(value)? {
            Some(key) => ValueFault::Key(key),
            None => ValueFault::KeyKind(value.kind()),
        })
    }

    /// The key that a value is, if it can be one.
    pub fn key_of(&self, value: Value) -> Result<Option<Key>, Memory>
        ensures { IfOk result (λ k. k ≡ key_of self.now value) }
    {
        Ok(match value {
            Value::Int(number) => Some(Key::Int(number)),
            Value::Bool(true) => Some(Key::Int(1)),
            Value::Bool(false) => Some(Key::Int(0)),
            Value::Text(id) => Some(Key::Text(Text::of(self.alloc, self.text_at(id))?)),
            _ => None,
        })
    }

    /// An object, and the text by which it shows from now on.
    #[tactic(auto, using(crate::proofs::Rooms::rooms))]
    pub fn object(&mut self, id: HostId, shown: &str) -> Result<Value, ValueFault>
        ensures ok { IfOk result (λ v. given_object self.old id.0 shown.now ≡ Ok (v, self.new)) }
        ensures fault { IfErr result (λ e. e ≢ ValueFault.Memory → given_object self.old id.0 shown.now ≡ Err e) }
        ensures err { OnErr result (self.new ≡ self.old) }
    {
        let length = shown.len() as u64;
        if length > TEXT_LIMIT {
            return Err(ValueFault::TooBig(length));
        }
        let made = Text::of(self.alloc, shown)?;
        self.keep_shown(id, made)?;
        Ok(Value::Object(id))
    }
}
