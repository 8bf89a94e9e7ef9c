//! Reading words from left to right.
ghost use Rattle.std.specs.Prelude.{◌≡◌, ◌≢◌, ◌<◌, length, true, false, Ok, Err, Some, None, IfOk, IfErr, OnOk, MatchOption, IfNone, IfSome, IsTrue, is_some};
ghost use Rattle.std.specs.Str.{bytes_eq};
ghost use Rattle.scons_base.specs.PathFaults.{fault_in};
ghost use Rattle.scons_words.specs.Values.{hash_found, is_taken, number_named};
ghost use Rattle.scons_words.specs.Switches.{long_switch};
ghost use Rattle.scons_words.specs.Readings.{start_reading, mixed, fault_at, with_value, valued_by, first_switch, behind_dash, LeadsWith, has_equals, IsParted, name_of, plain_long, valued_long, behind_dashes, undashed, after_dashes, after_dash, option_word, argument_by, requested_by, operand, word_read, hash_in, is_number_switch, is_long_number, stands_with_load, step, words_of, ended, read};
ghost use Rattle.scons_words.specs.declared.fault.UsageKind.{UsageKind};
ghost use Rattle.scons_words.specs.declared.reading.Reading.{Reading};

use crate::arguments::Arguments;
use crate::fault::{Refusal, UsageKind, WordsFault};
use crate::flags::Flags;
use crate::number::number_up_to;
use crate::switch::{Switch, Valued, long_switch, short_switch};
use crate::words::Words;
use scons_base::limits::JOB_LIMIT;
use scons_base::{PathFault, PathText, Paths, Text, Texts};
use std::alloc::Global;
use world_api::Hash;

/// How many rules a load may have.
const LOAD_LIMIT: u32 = 20_000;

/// What the words read so far say.
#[derive(Drop)]
pub(crate) struct Reading {
    scripts: Paths,
    arguments: Arguments,
    requested: Texts,
    flags: Flags,
    jobs: u32,
    load: Option<u32>,
    hash: Hash,
    explain: bool,
    tree: bool,
    /// Whether a word may still be an option.
    options: bool,
    /// The option whose value the next word is.
    waiting: Option<Valued>,
    /// The first word that may not stand beside a load.
    other: Option<u64>,
}

/// Reads the words of a command line, those behind the program's name.
pub fn read_words(alloc: Global, words: &[Text]) -> Result<Words, WordsFault>
    ensures ok { IfOk result (λ w. read words.now ≡ Ok w) }
    ensures fault { IfErr result (λ e. e ≢ WordsFault.Memory → read words.now ≡ Err e) }
{
    let mut reading = Reading::new(alloc);
    for (place, word) in words.iter().enumerate() {
        match reading.read_at(alloc, place as u64, word) {
            Ok(()) => {}
            Err(fault) => return Err(fault),
        }
    }
    reading.ended(words.len() as u64)
}

/// The fault of a word; an earlier word may not stand beside a load.
fn fault_at(mixed: Option<u64>, place: u64, kind: UsageKind) -> WordsFault
    ensures { result ≡ fault_at mixed place kind }
{
    match mixed {
        Some(place) => WordsFault::At(place, UsageKind::Mixed),
        None => WordsFault::At(place, kind),
    }
}

impl Reading {
    fn new(alloc: Global) -> Reading
        ensures { result ≡ start_reading }
    {
        Reading {
            scripts: Paths::new(Vec::new(alloc)),
            arguments: Arguments::new(alloc),
            requested: Texts::new(Vec::new(alloc)),
            flags: Flags::none(),
            jobs: 1,
            load: None,
            hash: Hash::Md5,
            explain: false,
            tree: false,
            options: true,
            waiting: None,
            other: None,
        }
    }

    /// The first word that may not stand beside the load, if one is asked for.
    fn mixed(&self) -> Option<u64>
        ensures { result ≡ mixed self.now }
    {
        match self.load {
            Some(_) => self.other,
            None => None,
        }
    }

    fn read_at(&mut self, alloc: Global, place: u64, word: &Text) -> Result<(), WordsFault>
        ensures ok { OnOk result (step place self.old word.now ≡ Ok self.new) }
        ensures fault { IfErr result (λ e. e ≢ WordsFault.Memory → step place self.old word.now ≡ Err e) }
    {
        let mixed = self.mixed();
        let stands = self.stands_with_load(word.as_str());
        match self.read(alloc, word) {
            Ok(()) => {}
            Err(Refusal::Memory) => return Err(WordsFault::Memory),
            Err(Refusal::Kind(kind)) => return Err(fault_at(mixed, place, kind)),
        }
        if !stands && self.other.is_none() {
            self.other = Some(place);
        }
        Ok(())
    }

    /// Whether a word is a load, a number of jobs, or the value of an option.
    fn stands_with_load(&self, word: &str) -> bool
        ensures { result ≡ stands_with_load self.now word.now }
    {
        if self.waiting.is_some() {
            return true;
        }
        self.options && (word.starts_with("-j") || is_long_number(word))
    }

    fn read(&mut self, alloc: Global, word: &Text) -> Result<(), Refusal>
        ensures ok { OnOk result (word_read self.old word.now ≡ Ok self.new) }
        ensures fault { (k : UsageKind) → result ≡ Err (Refusal.Kind k) → word_read self.old word.now ≡ Err k }
    {
        if let Some(valued) = self.waiting {
            self.waiting = None;
            return self.take_value(alloc, valued, word.as_str());
        }
        if !self.options {
            return self.read_operand(alloc, word);
        }
        self.read_option(alloc, word)
    }

    /// A word that may be an option.
    fn read_option(&mut self, alloc: Global, word: &Text) -> Result<(), Refusal>
        ensures ok { OnOk result (option_word self.old word.now ≡ Ok self.new) }
        ensures fault { (k : UsageKind) → result ≡ Err (Refusal.Kind k) → option_word self.old word.now ≡ Err k }
    {
        match undashed(word.as_str()) {
            None => self.read_operand(alloc, word),
            Some(rest) => self.read_dashed(alloc, rest),
        }
    }

    /// What stands behind one `-`.
    fn read_dashed(&mut self, alloc: Global, rest: &str) -> Result<(), Refusal>
        ensures ok { OnOk result (after_dash self.old rest.now ≡ Ok self.new) }
        ensures fault { (k : UsageKind) → result ≡ Err (Refusal.Kind k) → after_dash self.old rest.now ≡ Err k }
    {
        if rest.is_empty() {
            return Err(Refusal::Kind(UsageKind::Unknown));
        }
        match undashed(rest) {
            None => self.read_letters(alloc, rest),
            Some(long) => self.read_dashes(alloc, long),
        }
    }

    /// What stands behind `--`. Behind those alone no word is an option.
    fn read_dashes(&mut self, alloc: Global, long: &str) -> Result<(), Refusal>
        ensures ok { OnOk result (after_dashes self.old long.now ≡ Ok self.new) }
        ensures fault { (k : UsageKind) → result ≡ Err (Refusal.Kind k) → after_dashes self.old long.now ≡ Err k }
    {
        if long.is_empty() {
            self.options = false;
            return Ok(());
        }
        self.read_long(alloc, long)
    }

    /// A cluster of letters behind one `-`.
    fn read_letters(&mut self, alloc: Global, letters: &str) -> Result<(), Refusal>
        ensures ok { OnOk result (behind_dash self.old letters.now ≡ Ok self.new) }
        ensures fault { (k : UsageKind) → result ≡ Err (Refusal.Kind k) → behind_dash self.old letters.now ≡ Err k }
    {
        let mut rest = letters;
        'letters: while !rest.is_empty() {
            match first_letter(rest) {
                None => return Err(Refusal::Kind(UsageKind::Unknown)),
                Some((Switch::Valued(valued), after)) => return self.take_rest(
                    alloc, valued, after,
                ),
                Some((Switch::Flag(flag), after)) => {
                    self.flags.set(flag);
                    rest = after;
                }
            }
        }
        Ok(())
    }

    /// The value of an option in the rest of its word, or else in the next word.
    fn take_rest(&mut self, alloc: Global, valued: Valued, rest: &str) -> Result<(), Refusal>
        ensures ok { OnOk result (valued_by self.old valued rest.now ≡ Ok self.new) }
        ensures fault { (k : UsageKind) → result ≡ Err (Refusal.Kind k) → valued_by self.old valued rest.now ≡ Err k }
    {
        if rest.is_empty() {
            self.waiting = Some(valued);
            return Ok(());
        }
        self.take_value(alloc, valued, rest)
    }

    /// A long spelling.
    fn read_long(&mut self, alloc: Global, long: &str) -> Result<(), Refusal>
        ensures ok { OnOk result (behind_dashes self.old long.now ≡ Ok self.new) }
        ensures fault { (k : UsageKind) → result ≡ Err (Refusal.Kind k) → behind_dashes self.old long.now ≡ Err k }
    {
        match parted(long) {
            Some((name, value)) => self.read_valued(alloc, name, value),
            None => self.read_plain(long),
        }
    }

    /// A long spelling with a value behind `=`.
    fn read_valued(&mut self, alloc: Global, name: &str, value: &str) -> Result<(), Refusal>
        ensures ok { OnOk result (valued_long self.old (long_switch name.now) value.now ≡ Ok self.new) }
        ensures fault { (k : UsageKind) → result ≡ Err (Refusal.Kind k) → valued_long self.old (long_switch name.now) value.now ≡ Err k }
    {
        match long_switch(name) {
            Some(Switch::Valued(valued)) => self.take_value(alloc, valued, value),
            _ => Err(Refusal::Kind(UsageKind::Unknown)),
        }
    }

    /// A long spelling without a value.
    fn read_plain(&mut self, long: &str) -> Result<(), Refusal>
        ensures ok { OnOk result (plain_long self.old (long_switch long.now) ≡ Ok self.new) }
        ensures fault { (k : UsageKind) → result ≡ Err (Refusal.Kind k) → plain_long self.old (long_switch long.now) ≡ Err k }
    {
        match long_switch(long) {
            None => Err(Refusal::Kind(UsageKind::Unknown)),
            Some(Switch::Valued(valued)) => {
                self.waiting = Some(valued);
                Ok(())
            }
            Some(Switch::Flag(flag)) => {
                self.flags.set(flag);
                Ok(())
            }
        }
    }

    fn take_value(&mut self, alloc: Global, valued: Valued, value: &str) -> Result<(), Refusal>
        ensures ok { OnOk result (with_value self.old valued value.now ≡ Ok self.new) }
        ensures fault { (k : UsageKind) → result ≡ Err (Refusal.Kind k) → with_value self.old valued value.now ≡ Err k }
    {
        match valued {
            Valued::Script => self.scripts.push(path_named(alloc, value)?)?,
            Valued::Jobs => self.jobs = number_named(value, JOB_LIMIT)?,
            Valued::Load => self.load = Some(number_named(value, LOAD_LIMIT)?),
            Valued::HashFormat => self.hash = hash_named(value)?,
            Valued::Debug => self.explain = is_named(value, "explain")?,
            Valued::Tree => self.tree = is_named(value, "prune")?,
        }
        Ok(())
    }

    /// A word that is no option: an argument, or what is requested.
    fn read_operand(&mut self, alloc: Global, word: &Text) -> Result<(), Refusal>
        ensures ok { OnOk result (operand self.old word.now ≡ Ok self.new) }
        ensures fault { (k : UsageKind) → result ≡ Err (Refusal.Kind k) → operand self.old word.now ≡ Err k }
    {
        match parted(word.as_str()) {
            Some((name, value)) => self.read_argument(alloc, name, value),
            None => self.request(alloc, word),
        }
    }

    fn read_argument(&mut self, alloc: Global, name: &str, value: &str) -> Result<(), Refusal>
        ensures ok { OnOk result (argument_by self.old name.now value.now ≡ Ok self.new) }
        ensures fault { (k : UsageKind) → result ≡ Err (Refusal.Kind k) → argument_by self.old name.now value.now ≡ Err k }
    {
        if name.is_empty() {
            return Err(Refusal::Kind(UsageKind::BadArgument));
        }
        let name = Text::of(alloc, name)?;
        let value = Text::of(alloc, value)?;
        self.arguments.put(name, value)?;
        Ok(())
    }

    fn request(&mut self, alloc: Global, word: &Text) -> Result<(), Refusal>
        ensures ok { OnOk result (requested_by self.old word.now (fault_in word.now) ≡ Ok self.new) }
        ensures fault { (k : UsageKind) → result ≡ Err (Refusal.Kind k) → requested_by self.old word.now (fault_in word.now) ≡ Err k }
    {
        path_named(alloc, word.as_str())?;
        self.requested.push(word.copy()?)?;
        Ok(())
    }

    /// What all words say, where there are so many.
    fn ended(self, count: u64) -> Result<Words, WordsFault>
        ensures { result ≡ ended count self }
    {
        let mixed = self.mixed();
        if self.waiting.is_some() {
            return Err(fault_at(mixed, count.saturating_sub(1), UsageKind::NeedsValue));
        }
        if let Some(place) = mixed {
            return Err(WordsFault::At(place, UsageKind::Mixed));
        }
        Ok(self.into_words())
    }

    fn into_words(self) -> Words
        ensures { result ≡ words_of self }
    {
        let Reading {
            scripts,
            arguments,
            requested,
            flags,
            jobs,
            load,
            hash,
            explain,
            tree,
            options: _,
            waiting: _,
            other: _,
        } = self;
        Words {
            scripts,
            arguments: arguments.into_listing(),
            requested,
            jobs,
            keep: flags.keep,
            dry: flags.dry,
            clean: flags.clean,
            quiet: flags.quiet,
            silent: flags.silent,
            help: flags.help,
            load,
            hash,
            explain,
            tree,
        }
    }
}

fn is_long_number(word: &str) -> bool
    ensures { result ≡ is_long_number word.now }
{
    match word.strip_prefix("--") {
        Some(long) => is_number_switch(long_switch(name_of(long))),
        None => false,
    }
}

/// What stands behind a dash, if a word begins with one.
fn undashed(word: &str) -> Option<&str>
    ensures { MatchOption result (undashed word.now ≡ None) (λ rest. undashed word.now ≡ Some rest.now) }
{
    word.strip_prefix('-')
}

/// What stands in front of the first `=` of a text and behind it.
fn parted(text: &str) -> Option<(&str, &str)>
    ensures { MatchOption result (has_equals text.now ≡ false) (λ p. IsParted text.now p.0.now p.1.now) }
{
    text.split_once('=')
}

/// What stands in front of a long option's value.
fn name_of(long: &str) -> &str
    ensures { result.now ≡ name_of long.now }
{
    match long.split_once('=') {
        Some((name, _)) => name,
        None => long,
    }
}

fn is_number_switch(switch: Option<Switch>) -> bool
    ensures { result ≡ is_number_switch switch }
{
    matches!(switch, Some(Switch::Valued(Valued::Jobs | Valued::Load)))
}

/// The option of the first letter, and the letters behind it.
fn first_letter(letters: &str) -> Option<(Switch, &str)>
    requires { 0 < length letters.now }
    ensures none { IfNone result ((r : Reading) → behind_dash r letters.now ≡ Err UsageKind.Unknown) }
    ensures some { IfSome result (λ p. LeadsWith letters.now p.0 p.1.now) }
    ensures shorter { IfSome result (λ p. length p.1.now < length letters.now) }
{
    match letters.split_at_checked(1) {
        None => None,
        Some((letter, after)) => Some((switch_of(letter)?, after)),
    }
}

fn switch_of(letter: &str) -> Option<Switch>
    ensures { result ≡ first_switch letter.now }
{
    short_switch(*letter.as_bytes().first()?)
}

/// The path that a word names in normal form.
fn path_named(alloc: Global, text: &str) -> Result<PathText, Refusal>
    ensures path { IfOk result (λ p. p ≡ text.now) }
    ensures valid { IfOk result (λ _. fault_in text.now ≡ None) }
    ensures fault { (k : UsageKind) → result ≡ Err (Refusal.Kind k) → (k ≡ UsageKind.BadTarget) × IsTrue (is_some (fault_in text.now)) }
{
    match PathText::read(alloc, text) {
        Ok(path) => Ok(path),
        Err(PathFault::Memory) => Err(Refusal::Memory),
        Err(_) => Err(Refusal::Kind(UsageKind::BadTarget)),
    }
}

fn hash_named(text: &str) -> Result<Hash, Refusal>
    ensures { result ≡ hash_found (hash_in text.now) }
{
    if text == "md5" {
        Ok(Hash::Md5)
    } else if text == "sha1" {
        Ok(Hash::Sha1)
    } else if text == "sha256" {
        Ok(Hash::Sha256)
    } else {
        Err(Refusal::Kind(UsageKind::BadValue))
    }
}

/// True where a value is the one that its option takes.
fn is_named(text: &str, name: &str) -> Result<bool, Refusal>
    ensures { result ≡ is_taken (bytes_eq text.now name.now) }
{
    if text == name {
        Ok(true)
    } else {
        Err(Refusal::Kind(UsageKind::BadValue))
    }
}

fn number_named(text: &str, limit: u32) -> Result<u32, Refusal>
    ensures { result ≡ number_named limit text.now }
{
    match number_up_to(text, limit) {
        Some(number) => Ok(number),
        None => Err(Refusal::Kind(UsageKind::BadNumber)),
    }
}
