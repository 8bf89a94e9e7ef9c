//! A row of the table: which graphs, which roles, and which endings.
//!
//! `ROLES:SHAPE:ENDINGS:EVERY`. Roles are given to needs in turns. In the shape `t` turns needs round, `i` lets targets include
//! the needs of their rules, `g` ignores first needs, `c` lets each second rule copy, and with `a` the first rule alone has needs.
//! Among endings `f` are failed ones, `e` come while something else is wanted, `u` are fresh rules, `a` lacking ones, `h` halts.
//! Of each so many graphs one is tried, and where the row doesn't say of how many, each is.
ghost use Rattle.std.specs.Prelude.{◌<◌};

use trial_text::Told;

/// What is tried with each graph.
#[derive(Drop)]
pub struct Row<'a> {
    /// The roles of needs, in turns: `s` source, `d` depends, `l` library, `r` required, `f` found in the scanned source.
    roles: &'a str,
    pub scans: bool,
    /// Needs stand the other way round.
    pub turned: bool,
    /// A target includes the needs of its rule.
    pub inner: bool,
    /// A rule ignores its first need.
    pub ignores: bool,
    /// Each second rule copies.
    pub copies: bool,
    /// The other rules than the first one need nothing.
    pub alone: bool,
    /// Actions may fail, end while something else is wanted, a rule may be fresh or lack a file, and the build may halt.
    pub fails: bool,
    pub early: bool,
    pub fresh: bool,
    pub lacks: bool,
    pub halts: bool,
    /// Of each so many graphs one is tried.
    every: u32,
}

impl<'a> Row<'a> {
    /// The row of a text: roles, shape, endings and of how many graphs one is tried, with a colon between.
    pub fn read(told: &mut Told, line: &'a str) -> Row<'a> {
        let mut parts = line.split(':');
        let roles = parts.next().unwrap_or("");
        let shape = parts.next().unwrap_or("");
        let ends = parts.next().unwrap_or("");
        let every = match parts.next() {
            Some(every) if !every.is_empty() => told.number(every),
            _ => 1,
        };
        Row {
            roles,
            scans: roles.contains('f'),
            turned: shape.contains('t'),
            inner: shape.contains('i'),
            ignores: shape.contains('g'),
            copies: shape.contains('c'),
            alone: shape.contains('a'),
            fails: ends.contains('f'),
            early: ends.contains('e'),
            fresh: ends.contains('u'),
            lacks: ends.contains('a'),
            halts: ends.contains('h'),
            every,
        }
    }

    /// Whether the graph of this number is tried.
    pub fn tries(&self, number: u32) -> bool {
        number.is_multiple_of(self.every)
    }

    /// How many ways an action may end.
    pub fn ends(&self) -> usize
        ensures { 0 < result }
    {
        if self.fails { 2 } else { 1 }
    }

    /// How many decisions about a rule there may be.
    pub fn decisions(&self) -> usize {
        match (self.fresh, self.lacks) {
            (true, true) => 3,
            (false, false) => 1,
            _ => 2,
        }
    }

    /// The role of a rule's need.
    pub fn role(&self, rule: u32, place: usize) -> u8 {
        let roles = self.roles.as_bytes();
        if roles.is_empty() {
            return b'd';
        }
        let turn = (rule as usize).wrapping_mul(2).wrapping_add(place);
        roles[turn % roles.len()]
    }
}
