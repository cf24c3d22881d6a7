//! Numbers, in bytes in which they are known to lie.
ghost use Rattle.std.specs.Prelude.{◌≡◌, ◌≤◌, ◌+◌, length, true};
ghost use Rattle.pli_bytes.specs.Changes.{IsPut};
ghost use Rattle.pli_bytes.specs.Contents.{value_in};
ghost use Rattle.pli_map.specs.Description as tree;
ghost use Rattle.pli_map.specs.Sizes.{number_bytes};
ghost use Rattle.pli_value.specs.Numbers.{has_digits};
ghost use Rattle.pli_value.specs.Value.{Number};

use pli_bytes::{known_number, put_known_number};

/// The number that a scalar of FIXED BINARY of this precision holds, which lies at an offset of the bytes; these do not
/// end before it does.
#[inline(always)]
pub fn number_within(bytes: &[u8], offset: usize, precision: u8) -> i64
    requires { offset + number_bytes precision ≤ length bytes.now }
    ensures { value_in bytes.now (record { offset = offset; description = tree.FixedBinary precision })
        ≡ Number result }
{
    known_number(&bytes[offset..], precision)
}

/// A number of no more digits than the precision put there.
#[inline(always)]
pub fn put_number_within(bytes: &mut [u8], offset: usize, precision: u8, number: i64)
    requires few { precision ≤ 63 }
    requires digits { has_digits precision number ≡ true }
    requires within { offset + number_bytes precision ≤ length bytes.old }
    ensures { IsPut (tree.FixedBinary precision) (Number number) offset bytes.old bytes.new }
{
    put_known_number(&mut bytes[offset..], precision, number);
}
