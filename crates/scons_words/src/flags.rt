//! The options that take no value.
ghost use Rattle.std.specs.Prelude.{◌≡◌, false};
ghost use Rattle.scons_words.specs.Switches.{with_flag, no_flags};

use crate::switch::Flag;

/// Which of them stand among the words.
#[derive(Clone, Copy)]
pub(crate) struct Flags {
    pub(crate) keep: bool,
    pub(crate) dry: bool,
    pub(crate) clean: bool,
    pub(crate) quiet: bool,
    pub(crate) silent: bool,
    pub(crate) help: bool,
}

impl Flags {
    pub(crate) fn none() -> Flags
        ensures { result ≡ no_flags }
    {
        Flags {
            keep: false,
            dry: false,
            clean: false,
            quiet: false,
            silent: false,
            help: false,
        }
    }

    pub(crate) fn set(&mut self, flag: Flag)
        ensures { self.new ≡ with_flag self.old flag }
    {
        match flag {
            Flag::Keep => self.keep = true,
            Flag::Dry => self.dry = true,
            Flag::Clean => self.clean = true,
            Flag::Quiet => self.quiet = true,
            Flag::Silent => self.silent = true,
            Flag::Help => self.help = true,
        }
    }
}
