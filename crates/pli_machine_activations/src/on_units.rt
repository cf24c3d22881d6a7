//! The ON-units of an activation.
ghost use Rattle.std.specs.Prelude.{◌≡◌};
ghost use Rattle.pli_world.specs.Activations.{on_unit_for, with_on_unit};
ghost use Rattle.pli_machine_activations.specs.views.ActivationView.{on_units_view};

use pli_base::statement::Condition;

/// The number of the block of each ON-unit, at most one for each condition.
#[derive(Clone, Copy)]
pub struct OnUnits {
    pub overflow: Option<u16>,
    pub zero_divide: Option<u16>,
    pub area: Option<u16>,
}

impl OnUnits {
    /// The one for a condition.
    pub fn unit_for(&self, condition: Condition) -> Option<u16>
        ensures { result ≡ on_unit_for condition (on_units_view self.now) }
    {
        match condition {
            Condition::FixedOverflow => self.overflow,
            Condition::ZeroDivide => self.zero_divide,
            Condition::Area => self.area,
        }
    }

    /// Has this one for a condition from then on, or none for it.
    pub fn set(&mut self, condition: Condition, unit: Option<u16>)
        ensures { on_units_view self.new ≡ with_on_unit condition unit (on_units_view self.old) }
    {
        match condition {
            Condition::FixedOverflow => self.overflow = unit,
            Condition::ZeroDivide => self.zero_divide = unit,
            Condition::Area => self.area = unit,
        }
    }
}
