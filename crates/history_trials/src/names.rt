//! The paths of random projects: each is a spot, and has a name.
use model_trials::spots::Spot;

/// No project has more rules.
pub(crate) const MOST_RULES: usize = 5;

/// The letter and the name of each path.
pub(crate) const NAMES: [(u8, &str); 25] = [
    (b'A', "t0.h"),
    (b'B', "t1.h"),
    (b'C', "t2.h"),
    (b'D', "t3.h"),
    (b'E', "t4.h"),
    (b'F', "u0.h"),
    (b'G', "u1.h"),
    (b'H', "u2.h"),
    (b'I', "u3.h"),
    (b'J', "u4.h"),
    (b'a', "s0.h"),
    (b'b', "s1.h"),
    (b'c', "s2.h"),
    (b'd', "s3.h"),
    (b'e', "s4.h"),
    (b'k', "v/s0.h"),
    (b'l', "v/s1.h"),
    (b'm', "v/s2.h"),
    (b'n', "v/s3.h"),
    (b'o', "v/s4.h"),
    (b'p', "src/s0.h"),
    (b'q', "src/s1.h"),
    (b'r', "src/s2.h"),
    (b's', "src/s3.h"),
    (b't', "src/s4.h"),
];

/// The name of a path.
pub(crate) fn name_of(spot: &Spot) -> &'static str {
    for (letter, name) in NAMES {
        if letter == spot.letter() {
            return name;
        }
    }
    ""
}

/// The path that has a name.
pub(crate) fn spot_of(name: &str) -> Option<Spot> {
    for (letter, known) in NAMES {
        if known == name {
            return Some(Spot::new(letter));
        }
    }
    None
}

/// The first target of the rule of a number.
pub(crate) fn target(number: usize) -> Spot {
    spot(b'A', number)
}

/// The second target, of a rule that has one.
pub(crate) fn second(number: usize) -> Spot {
    spot(b'F', number)
}

/// The source that a rule has for itself.
pub(crate) fn source(number: usize) -> Spot {
    spot(b'a', number)
}

/// The same in a variant directory with copies.
pub(crate) fn copy(number: usize) -> Spot {
    spot(b'k', number)
}

/// What that is a copy of.
pub(crate) fn origin(number: usize) -> Spot {
    spot(b'p', number)
}

fn spot(first: u8, number: usize) -> Spot {
    match u8::try_from(number) {
        Ok(number) => Spot::new(first.wrapping_add(number)),
        Err(_) => Spot::new(first),
    }
}
