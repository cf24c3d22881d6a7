//! What the types of the program say of the units of a module, whatever they were compiled from.
ghost use Rattle.std.specs.Prelude.{map};
ghost use Rattle.std.specs.List.{AllByRecursion};
ghost use Rattle.pli_code.specs.views.CodeView.{code_view, deck_view, lent_member_view};
ghost use Rattle.pli_deck_laws.specs.UnitTypes.{IsByte, IsTypedCode, IsTypedDeck, IsTypedUnit};

use pli_code::{Code, CodedGlobal, CodedTemplate, Deck, LentMember};
use pli_type_tree::InitialScalar;
use pli_value::Value;

/// The characters of a text are bytes.
#[tactic(auto, using(crate::proofs::TypesSay::each_byte))]
fn text_is_bytes(text: &[u8])
    ensures { AllByRecursion IsByte text.now }
{}

/// What the type of a value says of it.
trait Tells {
    type Value;

    /// The value as definitions speak of it.
    ghost Said: { Type 0 };

    ghost say: { Self.Value → Said };

    ghost Holds: { Said → Type 0 };

    fn tell(&self, value: &Self::Value)
        ensures { Holds (say value.now) };
}

/// It holds of all values.
fn tell_all<T: Tells>(told: &T, values: &[T::Value])
    ensures { AllByRecursion T.Holds (map T.say values.now) }
{
    for value in values {
        told.tell(value);
    }
}

/// A value has bytes.
struct Values;

impl Tells for Values {
    ghost use Rattle.pli_value.specs.Value.{Value, value_view};
    ghost use Rattle.pli_deck_laws.specs.UnitTypes.{HasBytes};

    type Value = Value;

    ghost Said = { Value };

    ghost say = { value_view };

    ghost Holds = { HasBytes };

    fn tell(&self, value: &Value) {
        if let Value::Characters(text) = value {
            text_is_bytes(text.as_slice());
        }
    }
}

/// So has an initial value.
struct Initials;

impl Tells for Initials {
    ghost use Rattle.pli_type_tree.specs.Templates.{InitialScalar};
    ghost use Rattle.pli_type_tree.specs.views.TemplateView.{initial_view};
    ghost use Rattle.pli_deck_laws.specs.UnitTypes.{HasBytes};

    type Value = InitialScalar;

    ghost Said = { InitialScalar };

    ghost say = { initial_view };

    ghost Holds = { λ i. HasBytes i.value };

    fn tell(&self, value: &InitialScalar) {
        Values.tell(&value.value);
    }
}

/// A variable begins with bytes.
struct Templates;

impl Tells for Templates {
    ghost use Rattle.pli_code.specs.CodeTables.{CodedTemplate};
    ghost use Rattle.pli_code.specs.views.CodeView.{coded_template_view};
    ghost use Rattle.pli_deck_laws.specs.UnitTypes.{BeginsWithBytes};

    type Value = CodedTemplate;

    ghost Said = { CodedTemplate };

    ghost say = { coded_template_view };

    ghost Holds = { BeginsWithBytes };

    fn tell(&self, value: &CodedTemplate) {
        tell_all(&Initials, value.initial.as_slice());
    }
}

/// The name of a global is a name.
struct Globals;

impl Tells for Globals {
    ghost use Rattle.pli_code.specs.CodeTables.{CodedGlobal};
    ghost use Rattle.pli_code.specs.views.CodeView.{global_view};
    ghost use Rattle.pli_deck_laws.specs.UnitTypes.{HasName};

    type Value = CodedGlobal;

    ghost Said = { CodedGlobal };

    ghost say = { global_view };

    ghost Holds = { HasName };

    fn tell(&self, value: &CodedGlobal) {
        match value {
            CodedGlobal::OwnVariable { .. } => {}
            CodedGlobal::ExternalVariable { name, .. } => name.reads_as_itself(),
            CodedGlobal::EntryPoint { name, .. } => name.reads_as_itself(),
        }
    }
}

/// The names of a code are names, and its characters are bytes.
fn code_is_typed(code: &Code)
    ensures { IsTypedCode (code_view code.now) }
{
    tell_all(&Globals, code.globals.as_slice());
    tell_all(&Values, code.values.as_slice());
    tell_all(&Templates, code.templates.as_slice());
}

/// So are those of a deck.
fn deck_is_typed(deck: &Deck)
    ensures { IsTypedDeck (deck_view deck.now) }
{
    deck.name.reads_as_itself();
    code_is_typed(&deck.code);
}

/// So are those of a unit.
fn unit_is_typed(unit: &LentMember<'_>)
    ensures { IsTypedUnit (lent_member_view unit.now) }
{
    unit.name.reads_as_itself();
    deck_is_typed(unit.deck);
}

/// A law: the names of the units of a module are names, and their characters are bytes. It does nothing; it goes over
/// the units since their types tell it of each name and each value.
pub fn units_are_typed(units: &[LentMember<'_>])
    ensures { AllByRecursion IsTypedUnit (map lent_member_view units.now) }
{
    for unit in units {
        unit_is_typed(unit);
    }
}
