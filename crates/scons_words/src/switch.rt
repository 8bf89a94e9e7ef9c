//! The options, by their letters and by their long spellings.
ghost use Rattle.std.specs.Prelude.{◌≡◌};
ghost use Rattle.scons_words.specs.Switches.{short_switch, long_switch};

/// An option that takes no value.
#[derive(Clone, Copy)]
pub(crate) enum Flag {
    Keep,
    Dry,
    Clean,
    Quiet,
    Silent,
    Help,
}

/// An option that takes a value.
#[derive(Clone, Copy)]
pub(crate) enum Valued {
    Script,
    Jobs,
    Load,
    HashFormat,
    Debug,
    Tree,
}

#[derive(Clone, Copy)]
pub(crate) enum Switch {
    Flag(Flag),
    Valued(Valued),
}

/// The option of a letter.
pub(crate) fn short_switch(letter: u8) -> Option<Switch>
    ensures { result ≡ short_switch letter }
{
    Some(match letter {
        b'k' => Switch::Flag(Flag::Keep),
        b'n' => Switch::Flag(Flag::Dry),
        b'c' => Switch::Flag(Flag::Clean),
        b'Q' => Switch::Flag(Flag::Quiet),
        b's' => Switch::Flag(Flag::Silent),
        b'h' => Switch::Flag(Flag::Help),
        b'f' => Switch::Valued(Valued::Script),
        b'j' => Switch::Valued(Valued::Jobs),
        _ => return None,
    })
}

const LIST_ONLY: [&str; 4] = ["no-exec", "just-print", "dry-run", "recon"];

const REMOVE: [&str; 2] = ["clean", "remove"];

const SAY_NOTHING: [&str; 2] = ["silent", "quiet"];

const NAME_SCRIPT: [&str; 3] = ["file", "makefile", "sconstruct"];

/// The option of a long spelling.
pub(crate) fn long_switch(name: &str) -> Option<Switch>
    ensures { result ≡ long_switch name.now }
{
    if name == "keep-going" {
        Some(Switch::Flag(Flag::Keep))
    } else if LIST_ONLY.contains(&name) {
        Some(Switch::Flag(Flag::Dry))
    } else if REMOVE.contains(&name) {
        Some(Switch::Flag(Flag::Clean))
    } else if SAY_NOTHING.contains(&name) {
        Some(Switch::Flag(Flag::Silent))
    } else if name == "help" {
        Some(Switch::Flag(Flag::Help))
    } else if NAME_SCRIPT.contains(&name) {
        Some(Switch::Valued(Valued::Script))
    } else if name == "jobs" {
        Some(Switch::Valued(Valued::Jobs))
    } else if name == "load" {
        Some(Switch::Valued(Valued::Load))
    } else if name == "hash-format" {
        Some(Switch::Valued(Valued::HashFormat))
    } else if name == "debug" {
        Some(Switch::Valued(Valued::Debug))
    } else if name == "tree" {
        Some(Switch::Valued(Valued::Tree))
    } else {
        None
    }
}
