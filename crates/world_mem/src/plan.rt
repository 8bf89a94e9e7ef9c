//! What a job makes, and how it ends: known as it starts.
ghost use Rattle.std.specs.Prelude.{◌≡◌, List, ℕ, IfOk, map};
ghost use Rattle.std.specs.Option.{option_copied};
ghost use Rattle.world_api.specs.Act.{Law, act};
ghost use Rattle.world_api.specs.declared.job.Work.TheVariants.{Copy};
ghost use Rattle.world_api.specs.Around.{given_of};
ghost use Rattle.world_mem.specs.InSlots.{slot_at, content_of};
ghost use Rattle.world_mem.specs.Table.{content_by, outcome_by, shell_content, shell_outcome, written_content, written_outcome};
ghost use Rattle.world_mem.specs.Planned.{makes, ends, gives, IsFirstContent, IsRecipeOf, IsShellRecipe};

use crate::slots::Slots;
use crate::text::{dependency_lines, framed, signed_lines};
use act_table::{ActRow, ActTable, Contents, Made, copy_content};
use scons_base::limits::FILE_LIMIT;
use scons_base::{Memory, PathText, Paths, Texts};
use std::alloc::Global;
use text_files::{TextRefusal, write_bytes};
use world_api::{Content, Job, Outcome, Work};

/// What is the same for each target of a job: one content; contents by name; or the lines round a target's own.
#[derive(Drop)]
enum Recipe<'a> {
    Same(Content),
    Listed(&'a Contents),
    Lines(Vec<u8>, Vec<u8>),
}

fn first_content(given: &Contents) -> Result<Content, Memory>
    ensures { IfOk result (IsFirstContent given.now) }
{
    match given.as_slice().first() {
        Some((_, content)) => copy_content(content),
        None => Ok(None),
    }
}

/// How a write ends, and what it makes: nothing where that would be too long.
fn written(alloc: Global, texts: &Texts, given: &Contents) -> Result<(Outcome, Content), Memory>
    ensures outcome { IfOk result (λ end. end.0 ≡ written_outcome texts.now given.now) }
    ensures content { IfOk result (λ end. end.1 ≡ written_content texts.now given.now) }
{
    let contents = given.contents()?;
    match write_bytes(alloc, texts.as_slice(), contents.as_slice(), FILE_LIMIT) {
        Ok(content) => Ok((Outcome::Done, content)),
        Err(TextRefusal::TooLarge(_)) => Ok((Outcome::Failed(1), None)),
        Err(TextRefusal::Memory) => Err(Memory),
    }
}

/// How the shell ends by a row, and what it makes; or by the text of its own.
fn shell_recipe<'a>(
    alloc: Global,
    row: Option<&'a ActRow>,
    signed: &Texts,
    given: &Contents,
) -> Result<(Outcome, Recipe<'a>), Memory>
    ensures outcome { IfOk result (λ end. end.0 ≡ shell_outcome (option_copied row.entry)) }
    ensures recipe { IfOk result (λ end. IsShellRecipe (option_copied row.entry) signed.now given.now end.1) }
{
    match row {
        Some(row) => Ok(row_recipe(&row.made)),
        None => {
            let (front, back) = (
                signed_lines(alloc, signed)?,
                dependency_lines(alloc, given)?,
            );
            Ok((Outcome::Done, Recipe::Lines(front, back)))
        }
    }
}

fn row_recipe(made: &Made) -> (Outcome, Recipe<'_>)
    ensures outcome { result.0 ≡ outcome_by made.now }
    ensures recipe { (target : List ℕ) → gives result.1 target ≡ content_by made.now target }
{
    match made {
        Made::Files(contents) => (Outcome::Done, Recipe::Listed(contents)),
        Made::Fail(code) => (Outcome::Failed(*code), Recipe::Same(None)),
    }
}

fn recipe_of<'a>(
    alloc: Global,
    table: &'a ActTable,
    job: &Job,
    given: &Contents,
) -> Result<(Outcome, Recipe<'a>), Memory>
    ensures outcome { IfOk result (λ end. end.0 ≡ ends table.now job.now given.now) }
    ensures recipe { IfOk result (λ end. IsRecipeOf table.now job.now given.now end.1) }
{
    match job.work {
        Work::Shell => {
            let row = table.row_for(&job.signed, given);
            shell_recipe(alloc, row, &job.signed, given)
        }
        Work::Copy => Ok((Outcome::Done, Recipe::Same(first_content(given)?))),
        Work::Write => {
            let (outcome, content) = written(alloc, &job.signed, given)?;
            Ok((outcome, Recipe::Same(content)))
        }
    }
}

fn content_at(alloc: Global, recipe: &Recipe<'_>, target: &PathText) -> Result<Content, Memory>
    ensures { IfOk result (λ content. content ≡ gives recipe.now target.now) }
{
    match recipe {
        Recipe::Same(content) => copy_content(content),
        Recipe::Listed(contents) => match contents.listed(target) {
            Some(bytes) => Ok(Some(bytes.copy()?)),
            None => Ok(None),
        },
        Recipe::Lines(front, back) => Ok(Some(framed(alloc, front, target, back)?)),
    }
}

/// What these paths hold.
pub fn given_of(alloc: Global, slots: &Slots, paths: &Paths) -> Result<Contents, Memory>
    ensures { IfOk result (λ given. given ≡ given_of (λ path. content_of (slot_at slots.now path)) paths.now) }
{
    let mut given = Contents::new(Vec::new(alloc));
    for path in paths.as_slice() {
        let content = slots.copy_content(path)?;
        given.push(path.copy()?, content)?;
    }
    Ok(given)
}

fn contents_by(alloc: Global, recipe: &Recipe<'_>, targets: &Paths) -> Result<Contents, Memory>
    ensures { IfOk result (λ made. made ≡ map (λ target. (target, gives recipe.now target)) targets.now) }
{
    let mut made = Contents::new(Vec::new(alloc));
    for target in targets.as_slice() {
        let content = content_at(alloc, recipe, target)?;
        made.push(target.copy()?, content)?;
    }
    Ok(made)
}

/// How a job ends, and each target of it with what the job makes there.
pub fn ending_by(
    alloc: Global,
    table: &ActTable,
    job: &Job,
    given: &Contents,
) -> Result<(Outcome, Contents), Memory>
    ensures outcome { IfOk result (λ end. end.0 ≡ ends table.now job.now given.now) }
    ensures made { IfOk result (λ end. end.1 ≡ makes table.now job.now given.now) }
{
    let (outcome, recipe) = recipe_of(alloc, table, job, given)?;
    let made = contents_by(alloc, &recipe, &job.targets)?;
    Ok((outcome, made))
}
