//! Dummy arguments of numbers.
ghost use Rattle.std.specs.Prelude.{◌≡◌, ◌<◌, ◌++◌, ◌∷◌, [], length, vec_len, vec_capacity, true, MatchOption};
ghost use Rattle.pli_bytes.specs.Contents.{values_of};
ghost use Rattle.pli_map.specs.Description.{FixedBinary};
ghost use Rattle.pli_map.specs.Scalars.{scalars_of};
ghost use Rattle.pli_map.specs.Sizes.{size_of};
ghost use Rattle.pli_map.specs.Values.{are_held, holds};
ghost use Rattle.pli_map.specs.views.DescriptionView.{description_view};
ghost use Rattle.pli_value.specs.Value.{Number};
ghost use Rattle.pli_world.specs.World.{World, Yields, made_of, dummy_of, in_newest};
ghost use Rattle.pli_world.specs.Storage.{Dummy};

use crate::generation::{Generation, Made};
use crate::lone_numbers::USUAL_DIGITS;
use crate::part::number_precision;
use crate::place::Place;
use crate::putting::holds_number;
use crate::storage::Storage;
use pli_bytes::put_number_at;
use pli_map::{Description, fixed_binary_size};

impl<'m> Storage<'m> {
    ghost use Rattle.pli_store.specs.views.StorageView.{place_view, with_storage, RoomFor, SameStorage};

    /// A new generation for a dummy argument that begins with a number, as `make_dummy` makes it, where that is done at
    /// once: the description is of numbers and holds this one, and there is room for it, and memory. Else nothing has
    /// changed.
    #[inline(always)]
    pub fn make_dummy_at_once(
        &mut self,
        description: &'m Description,
        number: i64,
    ) -> Option<Place<'m>>
        ensures { MatchOption result (SameStorage self.old self.new)
            (λ place. (w : World) → dummy_of (description_view description.now) (Number number) (with_storage self.old w)
            ≡ Yields (place_view place) (in_newest (λ a. record a { pending = a.pending ++ place.generation ∷ [] })
            (with_storage self.new w))) }
    {
        let precision = number_precision(description)?;
        if !holds_number(precision, number) {
            return None;
        }
        // Most numbers have as many digits; then their size is a constant.
        if precision == USUAL_DIGITS {
            return self.make_number(description, USUAL_DIGITS, number);
        }
        self.make_number(description, precision, number)
    }

    /// The same where the description is of numbers of so many binary digits, which may be this.
    #[inline(always)]
    fn make_number(
        &mut self,
        description: &'m Description,
        precision: u8,
        number: i64,
    ) -> Option<Place<'m>>
        requires precision { description_view description.now ≡ FixedBinary precision }
        requires held { holds (FixedBinary precision) (Number number) ≡ true }
        ensures { MatchOption result (SameStorage self.old self.new)
            (λ place. (w : World) → dummy_of (description_view description.now) (Number number) (with_storage self.old w)
            ≡ Yields (place_view place) (in_newest (λ a. record a { pending = a.pending ++ place.generation ∷ [] })
            (with_storage self.new w))) }
    {
        let size = fixed_binary_size(u64::from(precision));
        if !self.has_room_for(u64::from(size)) {
            return None;
        }
        if self.generations.len() == self.generations.capacity() {
            return None;
        }
        let mut bytes = self.spare.take_kept(size as usize)?;
        let _put = put_number_at(&mut bytes, 0, precision, number);
        Some(self.add_number(description, precision, bytes))
    }

    /// A new generation of a number of so many binary digits with these bytes, for which there is room, and memory to note
    /// it.
    #[inline(always)]
    fn add_number(
        &mut self,
        description: &'m Description,
        precision: u8,
        bytes: Vec<u8>,
    ) -> Place<'m>
        requires precision { description_view description.now ≡ FixedBinary precision }
        requires room { RoomFor true self.old (description_view description.now) }
        requires size { length bytes.items ≡ size_of (description_view description.now) }
        requires memory { vec_len self.old.generations < vec_capacity self.old.generations }
        ensures { (w : World) → are_held (scalars_of (description_view description.now))
            (values_of (description_view description.now) bytes.items) ≡ true
            → made_of (description_view description.now) Dummy (values_of (description_view description.now) bytes.items)
            (with_storage self.old w) ≡ Yields (place_view result) (with_storage self.new w) }
    {
        let size = bytes.len() as u32;
        let at = self.generations.len() as u32;
        let number = self.made;
        self.generations.push_reserved(Generation {
            number,
            digits: precision,
            made: Made::Dummy,
            elements: 0,
            mark: 0,
            description,
            bytes,
            area: None,
        });
        self.made = number + 1;
        self.live += size;
        Place::of_alone(number, at, precision, description)
    }
}
