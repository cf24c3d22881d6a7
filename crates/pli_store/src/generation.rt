//! Generations of storage (X3.53).
ghost use Rattle.std.specs.Prelude.{◌≡◌, ◌<◌, ◌-◌, true, length, get_or, vec_len};
ghost use Rattle.std.specs.List.{remove};
ghost use Rattle.std.specs.Option.{is_some};
ghost use Rattle.pli_map.specs.Marks.{HasElements, HasMark};
ghost use Rattle.pli_map.specs.Scalars.{is_area};
ghost use Rattle.pli_map.specs.Sizes.{size_of};
ghost use Rattle.pli_map.specs.views.DescriptionView.{description_view};
ghost use Rattle.pli_store.specs.answers.Inhabited.{capacity_in};
ghost use Rattle.pli_store.specs.answers.Kinds.{digits_in};

use pli_area_blocks::AreaBlocks;
use pli_map::Description;

/// How a generation was made (X3.53).
#[derive(Clone, Copy)]
pub enum Made {
    /// For a variable of an activation, with which it ends.
    Automatic,
    /// Before the program begins; it never ends.
    Static,
    /// By ALLOCATE of a CONTROLLED variable.
    Controlled,
    /// By ALLOCATE of a BASED variable.
    Based,
    /// For an argument that is not passed by reference.
    Dummy,
}

/// A generation that lives: its number, counted from 0 in the order in which generations are made, and its bytes, in
/// which each scalar of its description lies at its offset. Bytes between scalars mean nothing.
#[derive(Drop)]
pub struct Generation<'m> {
    pub number: u32,
    /// How many binary digits it has, where it is a number; 0 where it is none.
    pub digits: u8,
    pub made: Made,
    /// The mark of the scalars of which it is an array, or 0.
    pub elements: u16,
    /// The mark of its description, or 0.
    pub mark: u64,
    pub description: &'m Description,
    /// As many as the size of the description.
    pub bytes: Vec<u8>,
    /// The blocks of an area, which have bytes of their own.
    pub area: Option<Box<AreaBlocks<'m>>>,
    ghost sized: { length bytes.items ≡ size_of (description_view description.now) },
    ghost inhabited: { is_some area ≡ is_area (description_view description.now) },
    ghost alone: { digits ≡ digits_in (description_view description.now) },
    ghost marked: { HasMark (description_view description.now) mark },
    ghost alike: { HasElements (description_view description.now) elements },
    ghost roomy: { is_area (description_view description.now) ≡ true →
        capacity_in area ≡ size_of (description_view description.now) },
}

/// The last generation, taken out of all.
#[inline(always)]
pub fn take_newest<'m>(generations: &mut Vec<Generation<'m>>) -> Generation<'m>
    requires { 0 < vec_len generations.old }
    ensures value { result ≡ get_or generations.old.items (vec_len generations.old - 1) result }
    ensures items { generations.new.items ≡ remove generations.old.items (vec_len generations.old - 1) }
{
    generations.take_last()
}

/// The generation at this index, taken out of all; the later ones move down.
#[inline(always)]
pub fn take_out<'m>(generations: &mut Vec<Generation<'m>>, at: usize) -> Generation<'m>
    requires { at < length generations.old.items }
    ensures value { result ≡ get_or generations.old.items at result }
    ensures items { generations.new.items ≡ remove generations.old.items at }
{
    if at + 1 < generations.len() {
        return generations.remove(at);
    }
    generations.take_last()
}
