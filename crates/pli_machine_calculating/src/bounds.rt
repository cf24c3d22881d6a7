//! Subscripts within their bounds.
ghost use Rattle.std.specs.Prelude.{◌≡◌, ◌&&◌, ◌≤ℤ◌, int_le, true, false, MatchOption};

/// A subscript as a number of 32 bits, where it is within its bounds.
#[inline]
pub fn bounded(low: i32, high: i32, subscript: i64) -> Option<i32>
    ensures outside { MatchOption result ((int_le low subscript && int_le subscript high) ≡ false) (λ _. Unit {0}) }
    ensures inside { MatchOption result (Unit {0}) (λ x. (x ≡ subscript) × (low ≤ℤ x)
        × ((int_le low x && int_le x high) ≡ true)) }
{
    if i64::from(low) <= subscript && subscript <= i64::from(high) {
        Some(subscript as i32)
    } else {
        None
    }
}
