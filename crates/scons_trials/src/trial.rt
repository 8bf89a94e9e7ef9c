//! A run to be tried, and what stands in its way.
use scons_base::Text;
use std::alloc::Global;
use trial_text::Told;
use world_mem::Call;

/// The source of a trial.
#[derive(Clone, Copy)]
pub enum Source {
    Usual,
    /// So many bytes.
    Large(u32),
    Absent,
}

/// A run, and what stands in its way.
#[derive(Drop)]
pub struct Trial<'a> {
    alloc: Global,
    pub words: Vec<Text>,
    /// The script's text, with `\n` for a line feed, if there is a script.
    pub script: Option<&'a str>,
    pub source: Source,
    /// The status that the action fails with.
    pub action: Option<i32>,
    /// The calls of the world that fail: which, and its number from 0.
    pub calls: Vec<(Call, u32)>,
    /// The numbers of the writes on standard output that fail, and on standard error.
    pub out: Vec<u32>,
    pub err: Vec<u32>,
}

impl<'a> Trial<'a> {
    /// A run that nothing stands in the way of.
    pub fn new(alloc: Global) -> Trial<'a> {
        Trial {
            alloc,
            words: Vec::new(alloc),
            script: Some("Command('o', 's', 'mk')\\n"),
            source: Source::Usual,
            action: None,
            calls: Vec::new(alloc),
            out: Vec::new(alloc),
            err: Vec::new(alloc),
        }
    }

    /// Takes a line of the trial.
    pub fn take(&mut self, told: &mut Told, line: &'a str) {
        let (key, rest) = line.split_once(' ').unwrap_or((line, ""));
        match key {
            "word" => self.take_word(told, rest),
            "script" => self.script = Some(rest),
            "no" if rest == "script" => self.script = None,
            "no" if rest == "source" => self.source = Source::Absent,
            "large" => self.source = Source::Large(told.number(rest)),
            "action" => self.take_action(told, rest),
            "call" => self.take_call(told, rest),
            "out" => take_number(told, &mut self.out, rest),
            "err" => take_number(told, &mut self.err, rest),
            _ => told.refuse(),
        }
    }

    fn take_word(&mut self, told: &mut Told, word: &str) {
        match Text::of(self.alloc, word) {
            Ok(word) => told.keep(&mut self.words, word),
            Err(_) => told.refuse(),
        }
    }

    fn take_action(&mut self, told: &mut Told, code: &str) {
        match code.parse::<i32>() {
            Ok(code) => self.action = Some(code),
            Err(_) => told.refuse(),
        }
    }

    /// Takes the name of a call and its number.
    fn take_call(&mut self, told: &mut Told, rest: &str) {
        let (name, number) = rest.split_once(' ').unwrap_or((rest, ""));
        let number = told.number(number);
        match call_of(name) {
            Some(call) => told.keep(&mut self.calls, (call, number)),
            None => told.refuse(),
        }
    }
}

fn take_number(told: &mut Told, numbers: &mut Vec<u32>, field: &str) {
    let number = told.number(field);
    told.keep(numbers, number);
}

/// The calls that a run of this command makes.
fn call_of(name: &str) -> Option<Call> {
    match name {
        "read_file" => Some(Call::ReadFile),
        "remove" => Some(Call::Remove),
        "start" => Some(Call::Start),
        "wait" => Some(Call::Wait),
        _ => None,
    }
}
