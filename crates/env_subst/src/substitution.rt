//! Substitution: a text is read, and its pieces are shown in a form.
ghost use Rattle.std.specs.Prelude.{◌≡◌, ◌≢◌, ◌<◌, ◌≤◌, [], Ok, Err, length, IfOk, IfErr, MatchResult, string_bytes};
ghost use Rattle.scons_base.specs.declared.limits.TheConstants.{SUBST_LIMIT};
ghost use Rattle.env_pieces.specs.Pieces.{pieces_of};
ghost use Rattle.env_pieces.specs.Forms.{text_of};
ghost use Rattle.env_subst.specs.Settings.{setting, setting_of};
ghost use Rattle.env_subst.specs.declared.locals.Locals.{Locals};
ghost use Rattle.env_subst.specs.Expansions.{State, text_at, started};
ghost use Rattle.env_subst.specs.Results.{form_fault, expansion, substituted};
ghost use Rattle.env_subst.specs.Desks.{plain, desk_of, idle, left_of, with_task, Leads};

use crate::apart::put_read;
use crate::calls::{more_items, put_dirs};
use crate::desk::{Desk, Stack, pop, put, put_all};
use crate::fault::SubstFault;
use crate::locals::Locals;
use crate::names::Names;
use crate::reading::{begin, expand, read_on, say_inside, say_more};
use crate::setting::Setting;
use crate::task::Task;
use crate::variable_name::VariableName;
use env_pieces::{FormFault, Mode, Piece, Pieces, form_of, text_of};
use env_vars::Envs;
use scons_base::{EnvId, Memory, Text};
use std::alloc::Global;

/// How many tasks there is room for at first.
const TASKS: usize = 8;

/// The form of what a text of an environment stands for.
pub fn subst(
    alloc: Global,
    envs: &Envs,
    env: EnvId,
    text: &str,
    locals: &Locals,
    mode: Mode,
) -> Result<String, SubstFault>
    requires { env.0 < length envs.now }
    ensures form { IfOk result (λ s. substituted (setting envs.now env.0 locals.now) mode text.now ≡ Ok (string_bytes s)) }
    ensures fault { IfErr result (λ e. e ≢ SubstFault.Memory
        → substituted (setting envs.now env.0 locals.now) mode text.now ≡ Err e) }
{
    let pieces = pieces_of(alloc, envs, env, text, locals)?;
    match form_of(alloc, pieces.as_slice(), mode) {
        Ok(form) => Ok(form),
        Err(fault) => Err(form_fault(fault)),
    }
}

pub(crate) fn form_fault(fault: FormFault) -> SubstFault
    ensures { result ≡ form_fault fault }
{
    match fault {
        FormFault::Marks(piece) => SubstFault::Marks(piece),
        FormFault::Memory => SubstFault::Memory,
    }
}

/// The pieces of a text of an environment.
pub(crate) fn pieces_of(
    alloc: Global,
    envs: &Envs,
    env: EnvId,
    text: &str,
    locals: &Locals,
) -> Result<Vec<Piece>, SubstFault>
    requires { env.0 < length envs.now }
    ensures pieces { IfOk result (λ v. expansion (setting envs.now env.0 locals.now) text.now ≡ Ok v.items) }
    ensures fault { IfErr result (λ e. e ≢ SubstFault.Memory
        → expansion (setting envs.now env.0 locals.now) text.now ≡ Err e) }
    ensures count { IfOk result (λ v. length v.items ≤ SUBST_LIMIT) }
{
    let setting = Setting {
        alloc,
        envs,
        env,
        locals,
    };
    let empty = VariableName::of(alloc, "")?;
    let text = Text::of(alloc, text)?;
    let read = read_pieces(&setting, Names::new(alloc), empty, text, 0)?;
    Ok(read.pieces.finish()?)
}

/// What is read of a text, the variables that were open before, and how many references there are.
#[derive(Drop)]
struct ReadPieces {
    pieces: Pieces,
    names: Names,
    references: usize,
}

/// The same with what is read as text.
#[derive(Drop)]
pub(crate) struct ReadText {
    pub(crate) text: Text,
    pub(crate) names: Names,
    pub(crate) references: usize,
}

/// What a text of the innermost of these variables is as text, behind so many references, and how many there are then.
pub(crate) fn read_text(
    setting: &Setting<'_>,
    names: Names,
    owner: VariableName,
    text: Text,
    references: usize,
) -> Result<ReadText, SubstFault>
    ensures names { IfOk result (λ r. r.names ≡ names) }
    ensures read { MatchResult result (λ r. (s : State) × (text_at (setting_of setting.now) names owner text (started references) ≡ Ok s)
        × (r.text ≡ text_of (pieces_of s.sheet)) × (r.references ≡ s.references))
        (λ e. e ≢ SubstFault.Memory → text_at (setting_of setting.now) names owner text (started references) ≡ Err e) }
{
    let read = read_pieces(setting, names, owner, text, references)?;
    let ReadPieces {
        pieces,
        names,
        references,
    } = read;
    let pieces = pieces.finish()?;
    let text = text_of(setting.alloc, pieces.as_slice())?;
    Ok(ReadText {
        text: Text::new(text),
        names,
        references,
    })
}

/// What is read of a text of the innermost of these variables, and how many references there are then.
fn read_pieces(
    setting: &Setting<'_>,
    names: Names,
    owner: VariableName,
    text: Text,
    references: usize,
) -> Result<ReadPieces, SubstFault>
    ensures names { IfOk result (λ r. r.names ≡ names) }
    ensures read { MatchResult result (λ r. text_at (setting_of setting.now) names owner text (started references)
        ≡ Ok (record { sheet = r.pieces; references = r.references }))
        (λ e. e ≢ SubstFault.Memory → text_at (setting_of setting.now) names owner text (started references) ≡ Err e) }
{
    let mut desk = desk_with(setting.alloc, names, references)?;
    begin(setting, &mut desk, owner, text)?;
    run(setting, &mut desk)?;
    let Desk {
        tasks: _tasks,
        names,
        pieces,
        references,
    } = desk;
    Ok(ReadPieces {
        pieces,
        names,
        references,
    })
}

/// Nothing is left to do and nothing is read.
fn desk_with<'a>(alloc: Global, names: Names, references: usize) -> Result<Desk<'a>, Memory>
    ensures { IfOk result (λ d. (locals : Locals) → desk_of locals d ≡ idle names references) }
{
    let tasks = Vec::with_capacity(alloc, TASKS)?;
    Ok(Desk {
        tasks: Stack { tasks },
        names,
        pieces: Pieces::new(alloc),
        references,
    })
}

/// Does all that is left to do. Beyond 2^64 - 1 turns, which would take centuries, it says want of memory.
fn run<'a>(setting: &Setting<'a>, desk: &mut Desk<'a>) -> Result<(), SubstFault>
    ensures { let w = setting_of setting.now in let l = setting.now.locals.now in
        MatchResult result (λ _. left_of w (desk_of l desk.old) ≡ Ok ((desk_of l desk.new).state, desk.new.names))
        (λ e. e ≢ SubstFault.Memory → left_of w (desk_of l desk.old) ≡ Err e) }
{
    'tasks: for _ in 0..u64::MAX {
        match pop(&mut desk.tasks) {
            Some(task) => step(setting, desk, task)?,
            None => return Ok(()),
        }
    }
    Err(SubstFault::Memory)
}

fn step<'a>(setting: &Setting<'a>, desk: &mut Desk<'a>, task: Task<'a>) -> Result<(), SubstFault>
    ensures { let w = setting_of setting.now in let l = setting.now.locals.now in
        Leads w (left_of w (with_task (plain l task.entry) (desk_of l desk.old))) (desk_of l desk.new) result }
{
    match task {
        Task::Put(text) => put(&mut desk.pieces, text.as_str()),
        Task::Read { owner, place } => read_on(setting, desk, owner, place),
        Task::Say { name, rest } => say_more(setting, desk, name, rest),
        Task::Inside { name, saying } => say_inside(setting, desk, name, saying),
        Task::Expand(name) => expand(setting, desk, name),
        Task::Items { call, rest } => more_items(setting, desk, call, rest),
        Task::Dirs { call, found, next } => put_dirs(setting, desk, call, found, next),
        Task::Apart { outer, call, alone } => put_read(setting, desk, outer, call, alone),
        Task::PutAll(pieces) => put_all(&mut desk.pieces, pieces),
        Task::Close => {
            desk.names.leave();
            Ok(())
        }
    }
}
