//! Tries substitution on the table that standard input holds, and prints what each of its texts gives.
//!
//! A line is a verb and its fields, with `|` between; in a text `\t`, `\n`, `\s`, `\z`, `\v`, `\f` and `\r` stand for a
//! tab, a line feed, a space, a zero byte, a vertical tab, a form feed and a carriage return.
//! `block` begins a new environment for a rule at the top, `set` and `overlay` give it values (`values.rt`), and `target`,
//! `source`, `smartlink`, `dir`, `top`, `variant` and `copied` tell what the rule knows. `subst` prints a text and then its
//! form as text, raw and signed, or the fault behind a `!`; `many` does so for a text so many times and a further one
//! behind, and `dirs` prints the directories of a search path. `given` sets a variable to what is meant where a value is given to
//! a clone, and `widest` tells how long that may be (`widest.rt`). `libs` prints the items of `LIBS`, `lines` the lines of a command
//! as text and signed, `command` both of one reading, and `path` the text of a path. `added`, `taken`, `named`, `default`,
//! `initial` and `apart` tell what variables hold after calls, each in a new environment (`held.rt`), `parts` the parts of a text,
//! and `pieces` and `full` the forms of pieces and how many there may be (`parts.rt`). An empty line and one that begins with `#`
//! say nothing.
#![tactic(auto)]

mod answer;
mod held;
mod parts;
mod rule;
mod shown;
mod trial;
mod values;
mod widest;
mod written;

use crate::answer::answer;
use crate::trial::Trial;
use std::io;

fn main(rt: HostRuntime) -> io::Result<()> {
    let table = io::read_to_string(rt.alloc(), rt.reader())?;
    match Trial::new(rt.alloc()) {
        Some(mut trial) => {
            answer_all(&mut trial, table.as_str());
            rt.print(trial.told.as_str())
        }
        None => rt.println("memory ran out"),
    }
}

/// Tells what each line of the table gives.
fn answer_all(trial: &mut Trial, table: &str) {
    for line in table.lines() {
        if line.is_empty() || line.starts_with('#') {
            continue;
        }
        answer(trial, line);
        trial.told.end(line);
    }
}
