//! Parts of generations copied.
ghost use Rattle.std.specs.Prelude.{◌≡◌, ◌≢◌, ◌+◌, ◌≤◌, length, map, IfOk};
ghost use Rattle.pli_map.specs.Scalars.{scalars_in};
ghost use Rattle.pli_map.specs.Sizes.{size_of};
ghost use Rattle.pli_map.specs.views.DescriptionView.{description_view};
ghost use Rattle.pli_bytes.specs.Contents.{bytes_from};
ghost use Rattle.pli_world.specs.Storage.{values_from};
ghost use Rattle.pli_store.specs.answers.Found.{PartStands};
ghost use Rattle.pli_store.specs.answers.Puts.{BytesCopied, BytesPut, BytesStand, ValuesPut};
ghost use Rattle.pli_store.specs.views.GenerationView.{generation_view};

use crate::generation::Generation;
use crate::part::GenerationPart;
use pli_map::{Description, far_size};
use std::alloc::{AllocError, Global};

/// How many bytes are taken at once on their way from one generation to another.
const PIECE: usize = 256;

/// Bytes of a generation, from one on, as many as there is room for.
fn take_bytes(generation: &Generation<'_>, offset: usize, bytes: &mut [u8])
    requires { offset + length bytes.old ≤ length generation.now.bytes.items }
    ensures { bytes.new ≡ bytes_from offset (length bytes.old) generation.now.bytes.items }
{
    bytes.copy_from_slice(&generation.bytes[offset..offset + bytes.len()]);
}

/// So many bytes of a generation, from one on, in memory of their own.
pub fn bytes_of_part(
    alloc: Global,
    generation: &Generation<'_>,
    offset: usize,
    description: &Description,
) -> Result<Vec<u8>, AllocError>
    requires within { offset + size_of (description_view description.now) ≤ length generation.now.bytes.items }
    requires limit { size_of (description_view description.now) ≤ 16777216 }
    ensures { IfOk result (λ bytes. bytes.items ≡ bytes_from offset
        (size_of (description_view description.now)) generation.now.bytes.items) }
{
    let size = far_size(description) as usize;
    let mut bytes = vec![in alloc; 0; size]?;
    take_bytes(generation, offset, &mut bytes);
    Ok(bytes)
}

/// Bytes put into a generation, from one on.
pub fn put_bytes(generation: &mut Generation<'_>, offset: usize, bytes: &[u8])
    requires { offset + length bytes.now ≤ length generation.old.bytes.items }
    ensures { BytesPut generation.old generation.new offset bytes.now }
{
    generation.bytes[offset..offset + bytes.len()].copy_from_slice(bytes);
}

/// So many bytes of a generation, from one on, put into it elsewhere.
fn copy_within(generation: &mut Generation<'_>, from: usize, to: usize, size: usize)
    requires from { from + size ≤ length generation.old.bytes.items }
    requires to { to + size ≤ length generation.old.bytes.items }
    ensures { BytesPut generation.old generation.new to (bytes_from from size generation.old.bytes.items) }
{
    generation.bytes.copy_within(from..from + size, to);
}

/// So many bytes of one generation put into another, piece by piece: no two generations are lent at once.
fn copy_apart(
    generations: &mut [Generation<'_>],
    from: GenerationPart,
    to: GenerationPart,
    size: usize,
)
    requires apart { from.at ≢ to.at }
    requires from { BytesStand generations.old from size }
    requires to { BytesStand generations.old to size }
    ensures { BytesCopied generations.old generations.new from to size }
{
    let mut piece = [0; PIECE];
    let mut done = 0;
    while done < size {
        let count = PIECE.min(size - done);
        let bytes = &mut piece[..count];
        take_bytes(&generations[from.at], from.offset + done, bytes);
        put_bytes(&mut generations[to.at], to.offset + done, bytes);
        done += count;
    }
}

/// So many bytes put elsewhere.
fn copy_bytes(
    generations: &mut [Generation<'_>],
    from: GenerationPart,
    to: GenerationPart,
    size: usize,
)
    requires from { BytesStand generations.old from size }
    requires to { BytesStand generations.old to size }
    ensures { BytesCopied generations.old generations.new from to size }
{
    if from.at == to.at {
        copy_within(&mut generations[to.at], from.offset, to.offset, size);
    } else {
        copy_apart(generations, from, to, size);
    }
}

/// What one part holds put into another of the same description.
pub fn copy_part(
    generations: &mut Vec<Generation<'_>>,
    from: GenerationPart,
    to: GenerationPart,
    description: &Description,
)
    requires from { PartStands (map generation_view generations.old.items) from (description_view description.now) }
    requires to { PartStands (map generation_view generations.old.items) to (description_view description.now) }
    requires limit { size_of (description_view description.now) ≤ 16777216 }
    ensures { (source : PartStands (map generation_view generations.old.items) from (description_view description.now))
        →
        ValuesPut (map generation_view generations.old.items) (map generation_view generations.new.items) to
        (description_view description.now)
        (values_from source.scalar (scalars_in (description_view description.now)) source.generation.values) }
{
    let size = far_size(description) as usize;
    copy_bytes(generations, from, to, size);
}
