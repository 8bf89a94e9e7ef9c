//! The reasons, and which of two is told.
ghost use Rattle.std.specs.Prelude.{◌≡◌};
ghost use Rattle.explain_report.specs.Order.{number, place_of, is_before, least};

/// Why a rule runs, in the order in which one is told before another. The first number of each is the place of a target
/// among the rule's; the second is the place of a dependency in the record of now, or for `Gone` in the old record.
#[derive(Clone, Copy, Debug, PartialEq, Eq)]
pub enum Reason {
    /// The rule is always built.
    Always(u32),
    /// The target is no file.
    Absent(u32),
    /// Nothing is recorded of the target.
    NoRecord(u32),
    /// The target was made by another action.
    Action(u32),
    /// A dependency that the old record doesn't name.
    Newly(u32, usize),
    /// A dependency that the record of now doesn't name.
    Gone(u32, usize),
    /// The names stand in another order.
    Moved(u32),
    /// A dependency that the rule's decider calls changed.
    Changed(u32, usize),
}

/// The one with the smaller number; of two with one number, the one with the smaller place of its target.
pub fn least(a: Reason, b: Reason) -> Reason
    ensures { result ≡ least a b }
{
    if is_before(b, a) { b } else { a }
}

fn is_before(a: Reason, b: Reason) -> bool
    ensures { result ≡ is_before a b }
{
    let (first, second) = (number(a), number(b));
    first < second || first == second && place_of(a) < place_of(b)
}

fn number(reason: Reason) -> u32
    ensures { result ≡ number reason }
{
    match reason {
        Reason::Always(_) => 1,
        Reason::Absent(_) => 2,
        Reason::NoRecord(_) => 3,
        Reason::Action(_) => 4,
        Reason::Newly(_, _) => 5,
        Reason::Gone(_, _) => 6,
        Reason::Moved(_) => 7,
        Reason::Changed(_, _) => 8,
    }
}

/// The place of the target that a reason is about, among those of the rule.
pub fn place_of(reason: Reason) -> u32
    ensures { result ≡ place_of reason }
{
    match reason {
        Reason::Always(target) => target,
        Reason::Absent(target) => target,
        Reason::NoRecord(target) => target,
        Reason::Action(target) => target,
        Reason::Newly(target, _) => target,
        Reason::Gone(target, _) => target,
        Reason::Moved(target) => target,
        Reason::Changed(target, _) => target,
    }
}
