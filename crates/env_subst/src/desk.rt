//! A text is read task by task. What is left is a stack of tasks, so that variables may stand in each other as deeply as
//! there may be references.
ghost use Rattle.std.specs.Prelude.{◌≡◌, ◌≢◌, ◌∷◌, ◌+◌, [], Some, None, true, false, nat_lt, OnOk, IfErr, MatchOption, MatchResult};
ghost use Rattle.env_pieces.specs.Pieces.{with_text, with_mark, with_pieces, pieces_of};
ghost use Rattle.env_subst.specs.declared.locals.Locals.{Locals};
ghost use Rattle.env_subst.specs.Desks.{plain, tasks_of, piece_fault};

use crate::fault::SubstFault;
use crate::names::Names;
use crate::task::Task;
use env_pieces::{Mark, PieceFault, Pieces};
use scons_base::limits::{REFERENCE_LIMIT, SUBST_LIMIT};
use scons_base::{Memory, Text};
use std::alloc::Global;

/// The tasks that are left, the uppermost last.
#[derive(Drop)]
pub(crate) struct Stack<'a> {
    pub(crate) tasks: Vec<Task<'a>>,
}

#[derive(Drop)]
pub(crate) struct Desk<'a> {
    pub(crate) tasks: Stack<'a>,
    pub(crate) names: Names,
    pub(crate) pieces: Pieces,
    pub(crate) references: usize,
}

pub(crate) fn push<'a>(stack: &mut Stack<'a>, task: Task<'a>) -> Result<(), Memory>
    ensures { OnOk result ((locals : Locals) → tasks_of locals stack.new.tasks.items
        ≡ plain locals task.entry ∷ tasks_of locals stack.old.tasks.items) }
{
    stack.tasks.push(task)?;
    Ok(())
}

pub(crate) fn pop<'a>(stack: &mut Stack<'a>) -> Option<Task<'a>>
    ensures { (locals : Locals) → MatchOption result (tasks_of locals stack.old.tasks.items ≡ [])
        (λ t. tasks_of locals stack.old.tasks.items ≡ plain locals t ∷ tasks_of locals stack.new.tasks.items) }
{
    stack.tasks.pop()
}

/// Puts a text behind what was read.
pub(crate) fn put(pieces: &mut Pieces, text: &str) -> Result<(), SubstFault>
    ensures ok { OnOk result (with_text text.now pieces.old ≡ Some pieces.new) }
    ensures fault { IfErr result (λ e. e ≢ SubstFault.Memory
        → (e ≡ SubstFault.TooLong (SUBST_LIMIT + 1)) × (with_text text.now pieces.old ≡ None)) }
{
    match pieces.put_text(text) {
        Ok(()) => Ok(()),
        Err(fault) => Err(piece_fault(fault)),
    }
}

/// The same of a text that is given away.
pub(crate) fn put_whole(pieces: &mut Pieces, text: Text) -> Result<(), SubstFault>
    ensures ok { OnOk result (with_text text pieces.old ≡ Some pieces.new) }
    ensures fault { IfErr result (λ e. e ≢ SubstFault.Memory
        → (e ≡ SubstFault.TooLong (SUBST_LIMIT + 1)) × (with_text text pieces.old ≡ None)) }
{
    put(pieces, text.as_str())
}

pub(crate) fn put_mark(pieces: &mut Pieces, mark: Mark) -> Result<(), SubstFault>
    ensures ok { OnOk result (with_mark mark pieces.old ≡ Some pieces.new) }
    ensures fault { IfErr result (λ e. e ≢ SubstFault.Memory
        → (e ≡ SubstFault.TooLong (SUBST_LIMIT + 1)) × (with_mark mark pieces.old ≡ None)) }
{
    match pieces.put_mark(mark) {
        Ok(()) => Ok(()),
        Err(fault) => Err(piece_fault(fault)),
    }
}

/// Puts pieces behind what was read.
pub(crate) fn put_all(pieces: &mut Pieces, more: Pieces) -> Result<(), SubstFault>
    ensures ok { OnOk result (with_pieces (pieces_of more) pieces.old ≡ Some pieces.new) }
    ensures fault { IfErr result (λ e. e ≢ SubstFault.Memory
        → (e ≡ SubstFault.TooLong (SUBST_LIMIT + 1)) × (with_pieces (pieces_of more) pieces.old ≡ None)) }
{
    match pieces.append(more) {
        Ok(()) => Ok(()),
        Err(fault) => Err(piece_fault(fault)),
    }
}

fn piece_fault(fault: PieceFault) -> SubstFault
    ensures { result ≡ piece_fault fault }
{
    match fault {
        PieceFault::TooLong => SubstFault::TooLong(SUBST_LIMIT + 1),
        PieceFault::Memory => SubstFault::Memory,
    }
}

/// Counts one more reference.
pub(crate) fn refer(references: usize) -> Result<usize, SubstFault>
    ensures { MatchResult result (λ n. (nat_lt references REFERENCE_LIMIT ≡ true) × (n ≡ references + 1))
        (λ e. (nat_lt references REFERENCE_LIMIT ≡ false) × (e ≡ SubstFault.TooMany (REFERENCE_LIMIT + 1))) }
{
    if references < REFERENCE_LIMIT as usize {
        Ok(references + 1)
    } else {
        Err(SubstFault::TooMany(REFERENCE_LIMIT + 1))
    }
}
