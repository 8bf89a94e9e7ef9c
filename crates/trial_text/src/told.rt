//! What is told so far, and whether the line that is told of is refused.
ghost use Rattle.std.specs.Prelude.{◌≡◌, ℕ, List, Bool, true, false, [], ◌∷◌, ◌++◌, flat_map, IfSome, string_bytes};
ghost use Rattle.trial_text.specs.Telling.{Telling, Tells, TellsRefused, Reads, IsNumber};

use std::alloc::Global;
use std::fmt::Display;
use std::marker::Model;
use std::str;

/// What is told so far, and whether the line that is told of is refused: since it can't be read, or for want of memory.
#[derive(Drop)]
pub struct Told {
    text: String,
    is_refused: bool,
}

impl Model for Told {
    ghost Value = { Telling };

    ghost view = { λ t. record { text = string_bytes t.text; is_refused = t.is_refused } };
}

impl Told {
    pub fn new(alloc: Global) -> Told
        ensures { result ≡ record { text = []; is_refused = false } }
    {
        Told {
            text: String::new(alloc),
            is_refused: false,
        }
    }

    /// Tells a text.
    pub fn put(&mut self, text: &str)
        ensures { Tells self.old self.new text.now }
    {
        if self.text.push_str(text).is_err() {
            self.is_refused = true;
        }
    }

    /// Tells texts one behind another.
    pub fn put_all(&mut self, texts: &[&str])
        ensures { Tells self.old self.new (flat_map (λ text. text.now) texts.now) }
    {
        for text in texts {
            self.put(text);
        }
    }

    /// Tells bytes that are a text.
    pub fn put_bytes(&mut self, bytes: &[u8])
        ensures { Tells self.old self.new bytes.now }
    {
        match str::from_utf8(bytes) {
            Ok(text) => self.put(text),
            Err(_) => self.is_refused = true,
        }
    }

    /// Tells what a value shows.
    pub fn show<D: Display + Drop>(&mut self, value: D)
        ensures { IfSome (D.output value) (Tells self.old self.new) }
    {
        if self.text.write_fmt(value).is_err() {
            self.is_refused = true;
        }
    }

    /// Refuses the line that is told of.
    pub fn refuse(&mut self)
        ensures { self.new ≡ record { text = self.old.text; is_refused = true } }
    {
        self.is_refused = true;
    }

    /// Ends what is told of a line, and says where it was refused.
    pub fn end(&mut self, line: &str)
        ensures whole { self.old.is_refused ≡ false → self.new ≡ self.old }
        ensures refused { self.old.is_refused ≡ true → TellsRefused self.old self.new line.now }
    {
        if self.is_refused {
            self.is_refused = false;
            self.put("refused: ");
            self.put(line);
            self.put("\n");
        }
    }

    /// The number that a field is; 0 where it is none, which refuses the line.
    pub fn number(&mut self, field: &str) -> u32
        ensures read { Reads self.old self.new (IsNumber field.now result) }
        ensures only { (number : ℕ) → IsNumber field.now number → self.new.is_refused ≡ self.old.is_refused }
    {
        match field.parse::<u32>() {
            Ok(number) => number,
            Err(_) => {
                self.is_refused = true;
                0
            }
        }
    }

    /// Puts an item behind a list.
    pub fn keep<T: Drop>(&mut self, list: &mut Vec<T>, item: T)
        ensures { Reads self.old self.new (list.new.items ≡ list.old.items ++ item ∷ []) }
    {
        if list.push(item).is_err() {
            self.is_refused = true;
        }
    }

    pub fn is_refused(&self) -> bool
        ensures { result ≡ self.now.is_refused }
    {
        self.is_refused
    }

    pub fn as_str(&self) -> &str
        ensures { result.now ≡ self.now.text }
    {
        self.text.as_str()
    }
}
