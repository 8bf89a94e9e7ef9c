//! The seam to what stands behind names and objects of scripts.
ghost use Rattle.std.specs.Prelude.{◌≡◌, Err, IfOk, OnOk};
ghost use Rattle.py_host.specs.Calls.{called, attribute, item, set_item, script_done, next_script, answers, refuses, arguments_of, given_of, tree_of};
ghost use Rattle.py_host.specs.Extends.{Extends};
ghost use Rattle.py_host.specs.Meaning.{Meaning, IsKept, IsDetermined};

use crate::args::Args;
use crate::place::Place;
use crate::refusal::HostRefusal;
use crate::reply::Reply;
use crate::scope::Scope;
use py_heap::{Heap, HostId, Value};
use py_tree::Script;

/// What stands behind the names and the objects of scripts. Whatever a call does to the heap, what stood in it stays as it
/// was; objects may show as other texts.
pub trait Host {
    ghost meaning: { Meaning Self };

    /// What a name stands for that no script has set and the language hasn't.
    fn name(&mut self, name: &str) -> Option<Value>
        ensures names { meaning.names self.old name.now result self.new }
        ensures keeps { meaning.keeps self.old self.new };

    /// Calls an object. `place` is the line of the call, which is that of the name before it, in the script in which it stands.
    /// `locals` are the names of the function that calls, none at a script's own level; `globals` are those
    /// of the script of that function or line.
    fn call(
        &mut self,
        heap: &mut Heap,
        place: Place,
        locals: &Scope,
        globals: &Scope,
        object: HostId,
        args: &Args,
    ) -> Result<Reply, HostRefusal>
        ensures ok { IfOk result (λ reply. meaning.replies
            (called place locals.now globals.now object.0 (arguments_of args.now))
            self.old heap.old (answers (given_of reply)) self.new heap.new) }
        ensures refused { result ≡ Err HostRefusal.Host → meaning.replies
            (called place locals.now globals.now object.0 (arguments_of args.now))
            self.old heap.old refuses self.new heap.new }
        ensures keeps { meaning.keeps self.old self.new }
        ensures stands { Extends heap.old heap.new };

    fn attribute(
        &mut self,
        heap: &mut Heap,
        place: Place,
        object: HostId,
        name: &str,
    ) -> Result<Value, HostRefusal>
        ensures ok { IfOk result (λ v. meaning.replies (attribute place object.0 name.now) self.old heap.old (answers v) self.new heap.new) }
        ensures refused { result ≡ Err HostRefusal.Host → meaning.replies (attribute place object.0 name.now) self.old heap.old refuses self.new heap.new }
        ensures keeps { meaning.keeps self.old self.new }
        ensures stands { Extends heap.old heap.new };

    fn index(
        &mut self,
        heap: &mut Heap,
        place: Place,
        object: HostId,
        key: Value,
    ) -> Result<Value, HostRefusal>
        ensures ok { IfOk result (λ v. meaning.replies (item place object.0 key) self.old heap.old (answers v) self.new heap.new) }
        ensures refused { result ≡ Err HostRefusal.Host → meaning.replies (item place object.0 key) self.old heap.old refuses self.new heap.new }
        ensures keeps { meaning.keeps self.old self.new }
        ensures stands { Extends heap.old heap.new };

    fn set_index(
        &mut self,
        heap: &mut Heap,
        place: Place,
        object: HostId,
        key: Value,
        value: Value,
    ) -> Result<(), HostRefusal>
        ensures ok { OnOk result (meaning.replies (set_item place object.0 key value) self.old heap.old (answers tt) self.new heap.new) }
        ensures refused { result ≡ Err HostRefusal.Host → meaning.replies (set_item place object.0 key value) self.old heap.old refuses self.new heap.new }
        ensures keeps { meaning.keeps self.old self.new }
        ensures stands { Extends heap.old heap.new };

    fn print(&mut self, text: &str) -> Result<(), HostRefusal>
        ensures ok { OnOk result (meaning.prints self.old text.now (answers tt) self.new) }
        ensures refused { result ≡ Err HostRefusal.Host → meaning.prints self.old text.now refuses self.new }
        ensures keeps { meaning.keeps self.old self.new };

    /// A script that a call began has ended with these names. The answer is the call's reply.
    fn script_done(&mut self, heap: &mut Heap, names: &Scope) -> Result<Reply, HostRefusal>
        ensures ok { IfOk result (λ reply. meaning.replies (script_done names.now) self.old heap.old (answers (given_of reply)) self.new heap.new) }
        ensures refused { result ≡ Err HostRefusal.Host → meaning.replies (script_done names.now) self.old heap.old refuses self.new heap.new }
        ensures keeps { meaning.keeps self.old self.new }
        ensures stands { Extends heap.old heap.new };

    /// The script to run after a first script has ended, if there is one.
    fn next_script(&mut self, heap: &mut Heap) -> Result<Option<Script>, HostRefusal>
        ensures ok { IfOk result (λ script. meaning.replies next_script self.old heap.old (answers (tree_of script)) self.new heap.new) }
        ensures refused { result ≡ Err HostRefusal.Host → meaning.replies next_script self.old heap.old refuses self.new heap.new }
        ensures keeps { meaning.keeps self.old self.new }
        ensures stands { Extends heap.old heap.new };

    ghost kept: { IsKept meaning };

    ghost determined: { IsDetermined meaning };
}
