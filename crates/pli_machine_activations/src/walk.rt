//! Walks outward along static links.
ghost use Rattle.std.specs.Prelude.{◌≡◌, ◌<◌, suc, length, option_map, IfSome};
ghost use Rattle.pli_world.specs.Activations.{outward_from, nearest_of, is_of};
ghost use Rattle.pli_machine_activations.specs.views.MachineView.{activation_view, activations_of};

use crate::machine::{Activation, Machine};

/// Which of the activations that wait is so many static links outward from the one that a link names.
pub fn outer(waiting: &[Activation], link: u32, outward: u8) -> Option<usize>
    ensures found { outward_from (activations_of waiting.now) link outward ≡ option_map suc result }
    ensures within { IfSome result (λ place. place < length waiting.now) }
{
    let mut count = waiting.len();
    let mut height = link as usize;
    for _passed in 0..outward {
        if height == 0 || height > count {
            return None;
        }
        count = height - 1;
        height = waiting[count].link as usize;
    }
    if height == 0 || height > count {
        None
    } else {
        Some(height - 1)
    }
}

/// Which of the activations that wait is so many static links outward from the one that the newest one's link names.
#[inline(never)]
pub fn outer_place(machine: &Machine, outward: u8) -> Option<usize>
    ensures found { outward_from (activations_of machine.now.waiting.items) machine.now.here.link outward
        ≡ option_map suc result }
    ensures within { IfSome result (λ place. place < length machine.now.waiting.items) }
{
    match machine.display.place(machine.here.link, outward) {
        Some(place) => Some(place),
        None => outer(&machine.waiting, machine.here.link, outward),
    }
}

/// Whether an activation is one of a block of a unit.
#[inline(always)]
pub fn is_of(activation: &Activation, unit: usize, block: u16) -> bool
    ensures { result ≡ is_of unit block (activation_view activation.now) }
{
    activation.unit == unit && activation.block == block
}

/// Which of the activations that wait is the nearest one of a block of a unit, outward from the one that a link names.
pub fn nearest(waiting: &[Activation], link: u32, unit: usize, block: u16) -> Option<usize>
    ensures found { nearest_of unit block (activations_of waiting.now) link ≡ option_map suc result }
    ensures within { IfSome result (λ place. place < length waiting.now) }
{
    let mut count = waiting.len();
    let mut height = link as usize;
    while height > 0 && height <= count {
        count = height - 1;
        let activation = &waiting[count];
        if is_of(activation, unit, block) {
            return Some(count);
        }
        height = activation.link as usize;
    }
    None
}
