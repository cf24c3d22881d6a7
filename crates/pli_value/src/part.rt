//! Which part of a string SUBSTR means (X3.74).
ghost use Rattle.std.specs.Prelude.{◌≡◌, ◌≤◌, ◌+◌, IfSome};
ghost use Rattle.pli_value.specs.Strings.{part_of, rest_of};

/// How many elements of a string stand before a part that is named by its first place, from 1 on, and its length, and
/// how many the part has; none where it does not lie within the string.
#[inline]
pub fn part_of(elements: usize, first: i64, count: i64) -> Option<(usize, usize)>
    ensures part { result ≡ part_of elements first count }
    ensures within { IfSome result (λ part. part.0 + part.1 ≤ elements) }
{
    if first < 1 || count < 0 {
        return None;
    }
    let (before, count) = ((first - 1) as u64, count as u64);
    let room = elements as u64;
    if before <= room && count <= room - before {
        Some((before as usize, count as usize))
    } else {
        None
    }
}

/// The same for the part from its first place to the end.
#[inline]
pub fn rest_of(elements: usize, first: i64) -> Option<(usize, usize)>
    ensures part { result ≡ rest_of elements first }
    ensures within { IfSome result (λ part. part.0 + part.1 ≤ elements) }
{
    if first < 1 {
        return None;
    }
    let before = (first - 1) as u64;
    if before <= elements as u64 {
        Some((before as usize, elements - before as usize))
    } else {
        None
    }
}
