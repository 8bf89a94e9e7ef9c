//! Integers of 64 bits.
ghost use Rattle.std.specs.Prelude.{◌≡◌, ◌+ℤ◌, ◌-ℤ◌, ◌*ℤ◌, pos, if◌then◌else◌, IfOk};
ghost use Rattle.std.specs.Option.{ok_or};
ghost use Rattle.std.proofs.Common.{neg_ℤ};
ghost use Rattle.py_compare.specs.Numbers.{fitting, floor_div, floor_rem, divided, remainder, IsDivision};

use py_heap::ValueFault;

#[tactic(auto, using(crate::proofs::Fitting::fitted))]
pub fn plus(a: i64, b: i64) -> Result<i64, ValueFault>
    ensures { result ≡ fitting (a +ℤ b) }
{
    fitting(a.checked_add(b))
}

#[tactic(auto, using(crate::proofs::Fitting::fitted))]
pub fn minus(a: i64, b: i64) -> Result<i64, ValueFault>
    ensures { result ≡ fitting (a -ℤ b) }
{
    fitting(a.checked_sub(b))
}

#[tactic(auto, using(crate::proofs::Fitting::fitted))]
pub fn times(a: i64, b: i64) -> Result<i64, ValueFault>
    ensures { result ≡ fitting (a *ℤ b) }
{
    fitting(a.checked_mul(b))
}

fn fitting(number: Option<i64>) -> Result<i64, ValueFault>
    ensures { result ≡ ok_or number ValueFault.Overflow }
{
    number.ok_or(ValueFault::Overflow)
}

/// The number with the other sign.
pub fn negative(number: i64) -> Result<i64, ValueFault>
    ensures { result ≡ fitting (pos 0 -ℤ number) }
{
    minus(0, number)
}

/// The quotient, rounded down.
#[tactic(auto, using(crate::proofs::Division::quotient_law))]
pub fn floor_div(a: i64, b: i64) -> Result<i64, ValueFault>
    ensures exact { result ≡ divided a b }
    ensures law { IfOk result (λ quotient. IsDivision a b quotient (floor_rem a b)) }
{
    let (m, n) = (a.unsigned_abs(), b.unsigned_abs());
    if n == 0 {
        return Err(ValueFault::Zero);
    }
    if (a < 0) == (b < 0) {
        signed(false, m / n)
    } else {
        signed(true, m.div_ceil(n))
    }
}

/// What is left of the first where the second is taken that many times.
#[tactic(auto, using(crate::proofs::Division::remainder_law))]
pub fn floor_rem(a: i64, b: i64) -> Result<i64, ValueFault>
    ensures exact { result ≡ remainder a b }
    ensures law { IfOk result (λ rest. IsDivision a b (floor_div a b) rest) }
{
    let (m, n) = (a.unsigned_abs(), b.unsigned_abs());
    if n == 0 {
        return Err(ValueFault::Zero);
    }
    if (a < 0) == (b < 0) {
        signed(b < 0, m % n)
    } else {
        signed(b < 0, (n - m % n) % n)
    }
}

/// A number by its sign and its distance from 0.
fn signed(negative: bool, distance: u64) -> Result<i64, ValueFault>
    ensures { result ≡ fitting (if negative then neg_ℤ (pos distance) else pos distance) }
{
    if negative {
        below_zero(distance)
    } else {
        above_zero(distance)
    }
}

/// How far from 0 a number can be: one less at the upper end.
const REACH: u64 = 1 << 63;

pub fn above_zero(distance: u64) -> Result<i64, ValueFault>
    ensures { result ≡ fitting (pos distance) }
{
    if distance < REACH {
        Ok(distance as i64)
    } else {
        Err(ValueFault::Overflow)
    }
}

fn below_zero(distance: u64) -> Result<i64, ValueFault>
    ensures { result ≡ fitting (neg_ℤ (pos distance)) }
{
    if distance < REACH {
        Ok(-(distance as i64))
    } else if distance == REACH {
        Ok(i64::MIN)
    } else {
        Err(ValueFault::Overflow)
    }
}
