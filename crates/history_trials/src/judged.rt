//! Whether what is seen behind a run is what the slow functions say.
use crate::course::{Course, is_alike};
use crate::kept::is_kept_alike;
use crate::names::NAMES;
use model_trials::spots::{Spot, has};
use model_trials::stale::{PlainFile, PlainKept, file_at, record_at};

/// What is wrong with a run, where something is.
pub(crate) type Wrong = Option<&'static str>;

/// What stands.
#[derive(Clone, Copy)]
pub(crate) struct Standing<'a> {
    pub(crate) files: &'a [PlainFile],
    pub(crate) kept: &'a [PlainKept],
}

/// Nothing changed, and nothing was started.
pub(crate) fn check_untouched(before: Standing, after: Standing, started: &[Spot]) -> Wrong {
    if !started.is_empty() {
        return Some("something was started");
    }
    for (letter, _) in NAMES {
        let spot = Spot::new(letter);
        if !is_alike(before.files, after.files, &spot) {
            return Some("a file changed");
        }
        if !is_kept_alike(before.kept, after.kept, &spot) {
            return Some("a record changed");
        }
    }
    None
}

/// Just what a course says was started and stands; in its order where one job ran at a time.
pub(crate) fn check_exact(
    course: &Course,
    after: Standing,
    started: &[Spot],
    in_order: bool,
) -> Wrong {
    if in_order && course.started.as_slice() != started {
        return Some("other rules were started, or in another order");
    }
    if !are_same(course.started.as_slice(), started) {
        return Some("other rules were started");
    }
    for (letter, _) in NAMES {
        let spot = Spot::new(letter);
        if !is_alike(course.files.as_slice(), after.files, &spot) {
            return Some("a file is another one");
        }
        if !is_kept_alike(course.kept.as_slice(), after.kept, &spot) {
            return Some("a record is another one");
        }
    }
    None
}

/// Whether two lists have the same paths, each once.
fn are_same(wanted: &[Spot], started: &[Spot]) -> bool {
    wanted.len() == started.len() && are_once_among(wanted, started)
}

/// Whether paths are among others, each once.
fn are_once_among(wanted: &[Spot], started: &[Spot]) -> bool {
    for (place, spot) in started.iter().enumerate() {
        let earlier = started.get(..place).unwrap_or(&[]);
        if !has(spot, wanted) || has(spot, earlier) {
            return false;
        }
    }
    true
}

/// What the rules of a course over sources alone make stands so.
pub(crate) fn check_clean(course: &Course, after: Standing) -> Wrong {
    if course.is_failed || course.is_cyclic {
        return Some("a clean build fails");
    }
    for (letter, _) in NAMES {
        let spot = Spot::new(letter);
        let is_made = has(&owner(&spot), course.started.as_slice());
        if is_made && !is_alike(course.files.as_slice(), after.files, &spot) {
            return Some("a file is another one than in a clean build");
        }
    }
    None
}

/// At most what a course says was started, each once, and no other file or record changed since the run began. A started rule's targets
/// hold what the course says, or are gone.
pub(crate) fn check_within(
    course: &Course,
    before: Standing,
    after: Standing,
    started: &[Spot],
) -> Wrong {
    if !are_once_among(course.started.as_slice(), started) {
        return Some("a rule was started that wasn't to be, or twice");
    }
    for (letter, _) in NAMES {
        let spot = Spot::new(letter);
        let is_as_made = has(&owner(&spot), started)
            && (file_at(after.files, &spot).is_none()
                || is_alike(course.files.as_slice(), after.files, &spot));
        if !is_as_made && !is_alike(before.files, after.files, &spot) {
            return Some("another file changed");
        }
        if !is_record_of(course, before, after, &spot) {
            return Some("another record stands");
        }
    }
    None
}

/// No file changed but targets of rules that a course starts and leftover copies that it takes away, and each record is the old one,
/// the new one or gone.
pub(crate) fn check_left(course: &Course, before: Standing, after: Standing) -> Wrong {
    for (letter, _) in NAMES {
        let spot = Spot::new(letter);
        let is_open = has(&owner(&spot), course.started.as_slice())
            || is_alike(course.files.as_slice(), after.files, &spot);
        if !is_open && !is_alike(before.files, after.files, &spot) {
            return Some("another file changed");
        }
        if !is_record_of(course, before, after, &spot) {
            return Some("another record stands");
        }
    }
    None
}

/// No file changed but what rules make; each rule was started at most once.
pub(crate) fn check_apart(before: Standing, after: Standing, started: &[Spot]) -> Wrong {
    if !are_once_among(started, started) {
        return Some("a rule was started twice");
    }
    for (letter, _) in NAMES {
        let spot = Spot::new(letter);
        let is_made = matches!(letter, b'A'..=b'J' | b'k'..=b'o');
        if !is_made && !is_alike(before.files, after.files, &spot) {
            return Some("a source changed");
        }
    }
    None
}

/// Whether a record is gone, or is the old one or that of a course.
fn is_record_of(course: &Course, before: Standing, after: Standing, spot: &Spot) -> bool {
    record_at(after.kept, spot).is_none()
        || is_kept_alike(before.kept, after.kept, spot)
        || is_kept_alike(course.kept.as_slice(), after.kept, spot)
}

/// The first target of the rule that makes a path.
fn owner(spot: &Spot) -> Spot {
    match spot.letter() {
        b'F' => Spot::new(b'A'),
        b'G' => Spot::new(b'B'),
        b'H' => Spot::new(b'C'),
        b'I' => Spot::new(b'D'),
        b'J' => Spot::new(b'E'),
        letter => Spot::new(letter),
    }
}
