//! Where a statement stands.
ghost use Rattle.std.specs.Prelude.{◌≡◌};
ghost use Rattle.py_parse.specs.Grammar as grammar;

/// Where a statement stands: at the outermost level of the script, in a function, in a loop of the same function or
/// script.
#[derive(Clone, Copy, Debug, Drop)]
pub struct Site {
    pub outermost: bool,
    pub in_def: bool,
    pub in_for: bool,
}

impl Site {
    pub fn top() -> Site
        ensures { result ≡ grammar.top }
    {
        Site {
            outermost: true,
            in_def: false,
            in_for: false,
        }
    }

    pub fn below(self) -> Site
        ensures { result ≡ grammar.below self }
    {
        Site {
            outermost: false,
            in_def: self.in_def,
            in_for: self.in_for,
        }
    }

    pub fn in_loop(self) -> Site
        ensures { result ≡ grammar.in_loop self }
    {
        Site {
            outermost: false,
            in_def: self.in_def,
            in_for: true,
        }
    }

    pub fn in_function() -> Site
        ensures { result ≡ grammar.in_function }
    {
        Site {
            outermost: false,
            in_def: true,
            in_for: false,
        }
    }
}
