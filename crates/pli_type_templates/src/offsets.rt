//! The bytes on which the scalars begin that an item stands for.
ghost use Rattle.std.specs.Prelude.{◌≡◌, ◌≤◌, ◌+◌, ◌++◌, length, take, IfOk};
ghost use Rattle.pli_type_templates.specs.Plans.{AreNested, spread, spread_over};

use crate::plan::ArrayLevel;
use std::alloc::AllocError;

/// Puts the bytes on which a scalar begins for each element of the arrays above it, in row-major order, until there are
/// as many as wanted.
#[cycle(put_offsets)]
pub(crate) fn put_offsets(
    levels: &[ArrayLevel],
    first: u32,
    wanted: u128,
    offsets: &mut Vec<u32>,
) -> Result<(), AllocError>
    requires wanted { length offsets.old.items ≤ wanted }
    requires nested { AreNested levels.now }
    requires room { first + spread_over levels.now ≤ 4294967295 }
    ensures { IfOk result (λ _. offsets.new.items ≡ take wanted (offsets.old.items ++ spread levels.now first)) }
{
    let Some((level, inner)) = levels.split_first() else {
        if (offsets.len() as u128) < wanted {
            offsets.push(first)?;
        }
        return Ok(());
    };
    let mut at = first;
    for _passed in 0..level.count {
        if offsets.len() as u128 == wanted {
            return Ok(());
        }
        put_offsets(inner, at, wanted, offsets)?;
        at += level.distance;
    }
    Ok(())
}
