//! What was said of each target.
ghost use Rattle.std.specs.Prelude.{◌≡◌, ◌++◌, ◌∷◌, [], ℕ, List, IfOk, OnOk, fold, map, slice_get};
ghost use Rattle.std.specs.List.{filter, filter_map};
ghost use Rattle.std.specs.Str.{bytes_eq};
ghost use Rattle.scons_rules.specs.AliasTable.{names_in};
ghost use Rattle.scons_rules.specs.Sayings.{Spoken, Tells, nothing_said, numbers_at, sentences_at, said_of, spoken_in, with_sentence};

use crate::aliases::Aliases;
use indexmap::IndexMap;
use scons_base::{Memory, PathText, Paths};
use scons_decls::{Declarations, Said, Saying};
use std::alloc::Global;

/// Each call that says something, with the files that it names.
#[derive(Drop)]
pub(crate) struct Sentence {
    saying: Saying,
    nodes: Paths,
}

/// What was said, found by the target.
#[derive(Drop)]
pub(crate) struct SaidOf {
    sentences: Vec<Sentence>,
    by_target: IndexMap<PathText, Vec<usize>>,
}

/// All that was said of the targets of one rule.
#[derive(Drop)]
pub(crate) struct OfRule {
    pub(crate) depends: Paths,
    pub(crate) required: Paths,
    pub(crate) ignored: Paths,
    pub(crate) always: bool,
}

impl SaidOf {
    pub(crate) fn new(
        alloc: Global,
        state: &Declarations,
        aliases: &Aliases,
    ) -> Result<SaidOf, Memory>
        ensures { IfOk result (Tells (spoken_in (names_in state.now.aliases) aliases.now state.now.said.items)) }
    {
        let mut said = SaidOf {
            sentences: Vec::new(alloc),
            by_target: IndexMap::new(alloc),
        };
        for one in &state.said {
            let nodes = aliases.paths_of(alloc, state, one.nodes.as_slice())?;
            said.add(alloc, one, nodes)?;
        }
        Ok(said)
    }

    fn add(&mut self, alloc: Global, said: &Said, nodes: Paths) -> Result<(), Memory>
        ensures { OnOk result ((spoken : Spoken) → Tells spoken self.old
            → Tells (spoken ++ (said.now.targets, record { saying = said.now.saying; nodes = nodes }) ∷ []) self.new) }
    {
        let number = self.sentences.len();
        self.sentences.push(Sentence {
            saying: said.saying,
            nodes,
        })?;
        for target in said.targets.as_slice() {
            self.note(alloc, target, number)?;
        }
        Ok(())
    }

    /// Notes that a sentence names a target.
    fn note(&mut self, alloc: Global, target: &PathText, number: usize) -> Result<(), Memory>
        ensures numbers { OnOk result ((path : List ℕ) → numbers_at self.new path
            ≡ numbers_at self.old path ++ map (λ _. number) (filter (bytes_eq path) (target.now ∷ []))) }
        ensures sentences { self.new.sentences ≡ self.old.sentences }
    {
        match self.by_target.get_mut(target) {
            Some(numbers) => numbers.push(number)?,
            None => {
                let mut numbers = Vec::new(alloc);
                numbers.push(number)?;
                self.by_target.insert(target.copy()?, numbers)?;
            }
        }
        Ok(())
    }

    /// What was said of these targets, in order.
    pub(crate) fn of_rule(&self, alloc: Global, targets: &[PathText]) -> Result<OfRule, Memory>
        ensures { IfOk result (λ r. (spoken : Spoken) → Tells spoken self.now → r ≡ said_of spoken targets.now) }
    {
        let mut of_rule = OfRule {
            depends: Paths::new(Vec::new(alloc)),
            required: Paths::new(Vec::new(alloc)),
            ignored: Paths::new(Vec::new(alloc)),
            always: false,
        };
        for target in targets {
            self.add_said(&mut of_rule, target)?;
        }
        Ok(of_rule)
    }

    fn add_said(&self, of_rule: &mut OfRule, target: &PathText) -> Result<(), Memory>
        ensures { OnOk result (of_rule.new ≡ fold with_sentence of_rule.old (sentences_at self.now target.now)) }
    {
        let Some(numbers) = self.by_target.get(target) else {
            return Ok(());
        };
        for number in numbers {
            add_numbered(of_rule, self.sentences.as_slice(), *number)?;
        }
        Ok(())
    }
}

fn add_numbered(of_rule: &mut OfRule, sentences: &[Sentence], number: usize) -> Result<(), Memory>
    ensures { OnOk result (of_rule.new ≡ fold with_sentence of_rule.old (filter_map (slice_get sentences.now) (number ∷ []))) }
{
    match sentences.get(number) {
        Some(sentence) => add_sentence(of_rule, sentence),
        None => Ok(()),
    }
}

fn add_sentence(of_rule: &mut OfRule, sentence: &Sentence) -> Result<(), Memory>
    ensures { OnOk result (of_rule.new ≡ with_sentence of_rule.old sentence.now) }
{
    let nodes = sentence.nodes.as_slice();
    match sentence.saying {
        Saying::Depends => push_copies(&mut of_rule.depends, nodes),
        Saying::Requires => push_copies(&mut of_rule.required, nodes),
        Saying::Ignore => push_copies(&mut of_rule.ignored, nodes),
        Saying::Always => {
            of_rule.always = true;
            Ok(())
        }
    }
}

fn push_copies(paths: &mut Paths, more: &[PathText]) -> Result<(), Memory>
    ensures { OnOk result (paths.new ≡ paths.old ++ more.now) }
{
    for path in more {
        paths.push(path.copy()?)?;
    }
    Ok(())
}
