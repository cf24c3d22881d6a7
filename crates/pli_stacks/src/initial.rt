//! Generations of variables, and the bytes with which they begin.
ghost use Rattle.std.specs.Prelude.{◌≡◌, ◌≤◌, length, map, IfOk, IfSome, OnErr};
ghost use Rattle.pli_bytes.specs.Contents.{scalars_at, values_of};
ghost use Rattle.pli_map.specs.Sizes.{size_of};
ghost use Rattle.pli_map.specs.Values.{first_values};
ghost use Rattle.pli_map.specs.views.DescriptionView.{description_view};
ghost use Rattle.pli_store.specs.answers.Answered.{Answered};
ghost use Rattle.pli_store.specs.views.GenerationView.{made_view};
ghost use Rattle.pli_store.specs.views.StorageView.{SameStorage, made_count, place_view, with_storage};
ghost use Rattle.pli_type_tree.specs.Templates.{with_initial};
ghost use Rattle.pli_type_tree.specs.views.TemplateView.{initial_view};
ghost use Rattle.pli_stacks.specs.answers.LaidBytes.{IsLaid};
ghost use Rattle.pli_world.specs.Storage.{whole};
ghost use Rattle.pli_world.specs.World.{World, made_of};

use pli_bytes::{lay_first, put_on};
use pli_map::{Description, far_size};
use pli_run::RunError;
use pli_store::{Kind, Made, Place, Storage, StoreFault};
use pli_type_tree::InitialScalar;
use std::alloc::{AllocError, Global};

/// How many bytes a generation of a CONTROLLED variable takes at most that is copied from bytes laid once (own).
const FEW: u64 = 4096;

/// Puts initial values in the place of those of their scalars, one after another. One that its scalar may not hold is
/// left out.
fn put_all(bytes: &mut [u8], description: &Description, scalars: &[InitialScalar])
    requires size { length bytes.old ≡ size_of (description_view description.now) }
    requires limit { size_of (description_view description.now) ≤ 16777216 }
    ensures put { let d = description_view description.now in
        values_of d bytes.new ≡ with_initial (scalars_at d) (map initial_view scalars.now) (values_of d bytes.old) }
    ensures size { length bytes.new ≡ length bytes.old }
{
    for scalar in scalars {
        put_on(bytes, description, scalar.offset, &scalar.value);
    }
}

/// Lays down what a variable begins with: for each scalar its initial value, or the one of its type.
fn lay_initial(bytes: &mut [u8], description: &Description, scalars: &[InitialScalar])
    requires size { length bytes.old ≡ size_of (description_view description.now) }
    requires limit { size_of (description_view description.now) ≤ 16777216 }
    ensures { IsLaid (record { description = description_view description.now; initial = map initial_view scalars.now })
        bytes.new }
{
    lay_first(description, bytes);
    put_all(bytes, description, scalars);
}

/// The bytes with which a variable begins: each scalar with its initial value, or with the one of its type. The
/// description takes no more bytes than may live.
pub fn initial_bytes(
    alloc: Global,
    description: &Description,
    scalars: &[InitialScalar],
) -> Result<Vec<u8>, AllocError>
    requires { size_of (description_view description.now) ≤ 16777216 }
    ensures { IfOk result (λ bytes. IsLaid (record {
      description = description_view description.now;
      initial = map initial_view scalars.now;
    }) bytes.items) }
{
    let mut bytes = vec![in alloc; 0; far_size(description) as usize]?;
    lay_initial(&mut bytes, description, scalars);
    Ok(bytes)
}

/// The same where they are no more than 4,096, and else nothing.
pub fn few_bytes(
    alloc: Global,
    description: &Description,
    scalars: &[InitialScalar],
) -> Result<Option<Vec<u8>>, AllocError>
    ensures { IfOk result (λ laid. IfSome laid (λ bytes. IsLaid
        (record { description = description_view description.now; initial = map initial_view scalars.now })
        bytes.items)) }
{
    if far_size(description) > FEW {
        return Ok(None);
    }
    let bytes = initial_bytes(alloc, description, scalars)?;
    Ok(Some(bytes))
}

/// Lays down what a variable begins with, which is copied where it is laid.
fn begin(
    bytes: &mut [u8],
    description: &Description,
    scalars: &[InitialScalar],
    laid: Option<&[u8]>,
)
    requires size { length bytes.old ≡ size_of (description_view description.now) }
    requires limit { size_of (description_view description.now) ≤ 16777216 }
    requires laid { IfSome laid (λ bytes. IsLaid (record {
      description = description_view description.now;
      initial = map initial_view scalars.now;
    }) bytes.now) }
    ensures { IsLaid (record { description = description_view description.now; initial = map initial_view scalars.now })
        bytes.new }
{
    match laid {
        Some(laid) => bytes.copy_from_slice(laid),
        None => lay_initial(bytes, description, scalars),
    }
}

/// The bytes with which a variable begins, copied where they are laid, in memory that generations have left that have
/// ended. The description takes no more bytes than may live.
pub fn first_bytes(
    alloc: Global,
    storage: &mut Storage<'_>,
    description: &Description,
    scalars: &[InitialScalar],
    laid: Option<&[u8]>,
) -> Result<Vec<u8>, AllocError>
    requires limit { size_of (description_view description.now) ≤ 16777216 }
    requires laid { IfSome laid (λ bytes. IsLaid (record {
      description = description_view description.now;
      initial = map initial_view scalars.now;
    }) bytes.now) }
    ensures laid { IfOk result (λ bytes. IsLaid (record {
      description = description_view description.now;
      initial = map initial_view scalars.now;
    }) bytes.items) }
    ensures same { SameStorage storage.old storage.new }
{
    let mut first = storage.spare_bytes(alloc, far_size(description) as usize)?;
    begin(&mut first, description, scalars, laid);
    Ok(first)
}

/// Makes a generation of this description. Its scalars begin with these initial values, and those without one as their
/// types have it; where the bytes of all that were laid before, they are handed over and copied. `StorageLimit` where
/// there is no room for the generation.
#[inline(always)]
pub fn make_initial<'m>(
    alloc: Global,
    storage: &mut Storage<'m>,
    description: &'m Description,
    made: Made,
    scalars: &[InitialScalar],
    laid: Option<&[u8]>,
) -> Result<Place<'m>, StoreFault>
    requires { IfSome laid (λ bytes. IsLaid (record {
      description = description_view description.now;
      initial = map initial_view scalars.now;
    }) bytes.now) }
    ensures answer { (w : World) → Answered place_view result (with_storage storage.old w) (with_storage storage.new w)
        (made_of (description_view description.now) (made_view made)
        (with_initial (scalars_at (description_view description.now)) (map initial_view scalars.now)
        (first_values (description_view description.now)))
        (with_storage storage.old w)) }
    ensures err { OnErr result (SameStorage storage.old storage.new) }
{
    match laid {
        Some(bytes) => storage.make_copy(alloc, description, made, bytes),
        None => make_anew(alloc, storage, description, made, scalars),
    }
}

/// The same of a generation of this kind, whose place is the next, so that it is not handed back.
#[inline(always)]
pub fn make_next<'m>(
    alloc: Global,
    storage: &mut Storage<'m>,
    kind: &Kind<'m>,
    made: Made,
    scalars: &[InitialScalar],
    laid: Option<&[u8]>,
) -> Result<(), StoreFault>
    requires { IfSome laid (λ bytes. IsLaid (record {
      description = description_view kind.now.description.now;
      initial = map initial_view scalars.now;
    }) bytes.now) }
    ensures answer { (w : World) → Answered (λ _. whole (made_count storage.old) (description_view kind.now.description.now))
        result (with_storage storage.old w) (with_storage storage.new w)
        (made_of (description_view kind.now.description.now) (made_view made)
        (with_initial (scalars_at (description_view kind.now.description.now)) (map initial_view scalars.now)
        (first_values (description_view kind.now.description.now)))
        (with_storage storage.old w)) }
    ensures err { OnErr result (SameStorage storage.old storage.new) }
{
    match laid {
        Some(bytes) => storage.make_of(alloc, kind, made, bytes),
        None => make_next_anew(alloc, storage, kind.description, made, scalars),
    }
}

/// The same of a generation of this kind whose place is handed back.
#[inline(always)]
pub fn make_initial_of<'m>(
    alloc: Global,
    storage: &mut Storage<'m>,
    kind: &Kind<'m>,
    made: Made,
    scalars: &[InitialScalar],
    laid: Option<&[u8]>,
) -> Result<Place<'m>, StoreFault>
    requires { IfSome laid (λ bytes. IsLaid (record {
      description = description_view kind.now.description.now;
      initial = map initial_view scalars.now;
    }) bytes.now) }
    ensures answer { (w : World) → Answered place_view result (with_storage storage.old w) (with_storage storage.new w)
        (made_of (description_view kind.now.description.now) (made_view made)
        (with_initial (scalars_at (description_view kind.now.description.now)) (map initial_view scalars.now)
        (first_values (description_view kind.now.description.now)))
        (with_storage storage.old w)) }
    ensures err { OnErr result (SameStorage storage.old storage.new) }
{
    let next = storage.next_handle();
    match make_next(alloc, storage, kind, made, scalars, laid) {
        Ok(()) => Ok(kind.place(next)),
        Err(fault) => Err(fault),
    }
}

/// A generation as `make_next` makes it where nothing was laid before.
#[inline(never)]
fn make_next_anew<'m>(
    alloc: Global,
    storage: &mut Storage<'m>,
    description: &'m Description,
    made: Made,
    scalars: &[InitialScalar],
) -> Result<(), StoreFault>
    ensures answer { (w : World) → Answered (λ _. whole (made_count storage.old) (description_view description.now))
        result (with_storage storage.old w) (with_storage storage.new w)
        (made_of (description_view description.now) (made_view made)
        (with_initial (scalars_at (description_view description.now)) (map initial_view scalars.now)
        (first_values (description_view description.now)))
        (with_storage storage.old w)) }
    ensures err { OnErr result (SameStorage storage.old storage.new) }
{
    match make_anew(alloc, storage, description, made, scalars) {
        Ok(_place) => Ok(()),
        Err(fault) => Err(fault),
    }
}

/// A generation whose place is handed back, where nothing was laid before.
#[inline(never)]
fn make_anew<'m>(
    alloc: Global,
    storage: &mut Storage<'m>,
    description: &'m Description,
    made: Made,
    scalars: &[InitialScalar],
) -> Result<Place<'m>, StoreFault>
    ensures answer { (w : World) → Answered place_view result (with_storage storage.old w) (with_storage storage.new w)
        (made_of (description_view description.now) (made_view made)
        (with_initial (scalars_at (description_view description.now)) (map initial_view scalars.now)
        (first_values (description_view description.now)))
        (with_storage storage.old w)) }
    ensures err { OnErr result (SameStorage storage.old storage.new) }
{
    if !storage.has_room(description) {
        return Err(StoreFault::Raised(RunError::StorageLimit));
    }
    let initial = first_bytes(alloc, storage, description, scalars, None)?;
    storage.make(description, made, Some(initial))
}
