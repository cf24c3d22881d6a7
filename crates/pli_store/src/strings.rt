//! Dummy arguments for strings of any length: each is as long as its value.
ghost use Rattle.std.specs.Prelude.{◌≡◌, ◌≤◌, ◌<◌, ◌++◌, ◌∷◌, [], true, false, length, IfOk, MatchOption, MatchResult};
ghost use Rattle.std.specs.Prelude.{OnErr};
ghost use Rattle.pli_map.specs.ParameterTypes.{string_of};
ghost use Rattle.pli_map.specs.declared.parameter.StringForm.{StringForm as Form};
ghost use Rattle.pli_map.specs.declared.parameter.StringForm.TheVariants as forms;
ghost use Rattle.pli_map.specs.views.DescriptionView.{description_view};
ghost use Rattle.pli_value.specs.Value as plain;
ghost use Rattle.pli_value.specs.Value.{value_view};
ghost use Rattle.pli_world.specs.Strings.{string_dummy_of};
ghost use Rattle.pli_world.specs.World.{World, Yields, in_newest};
ghost use Rattle.pli_store.specs.answers.Answered.{Answered};
ghost use Rattle.pli_store.specs.answers.StringLists.{AreStrings};
ghost use Rattle.pli_store.specs.answers.Strings.{AreAllStrings, DummyMade, IsDummyLength, asks_for, has_form, listed};
ghost use Rattle.pli_store.specs.views.StorageView.{SameStorage, place_view, with_storage};

use crate::fault::StoreFault;
use crate::place::Place;
use crate::storage::Storage;
use crate::string_descriptions::StringDescriptions;
use pli_map::{Description, StringForm};
use pli_value::Value;
use pli_value::bit::{self, Bits};
use std::alloc::{AllocError, Global};

/// The greatest length of a string (own).
const GREATEST_LENGTH: u16 = 32_767;

/// Forms of strings: those for which descriptions are asked.
#[derive(Clone, Copy)]
pub struct StringForms {
    pub characters: bool,
    pub varying: bool,
    pub bits: bool,
}

impl StringForms {
    /// None of them.
    pub fn none() -> StringForms
        ensures { (other : Form) → asks_for result other ≡ false }
    {
        StringForms {
            characters: false,
            varying: false,
            bits: false,
        }
    }

    /// With one more.
    pub fn with(self, form: StringForm) -> StringForms
        ensures one { asks_for result form ≡ true }
        ensures others { (other : Form) → asks_for self other ≡ true → asks_for result other ≡ true }
    {
        match form {
            StringForm::Character => StringForms {
                characters: true,
                varying: self.varying,
                bits: self.bits,
            },
            StringForm::Varying => StringForms {
                characters: self.characters,
                varying: true,
                bits: self.bits,
            },
            StringForm::Bit => StringForms {
                characters: self.characters,
                varying: self.varying,
                bits: true,
            },
        }
    }
}

/// A dummy argument for a string: how long it is, and the value that it holds.
#[derive(Drop)]
pub struct DummyString {
    pub length: u16,
    pub value: Value,
}

/// Descriptions of the strings of a form, of every length from 1 to 32,767.
#[tactic(auto, using(crate::proofs::StringLemmas::no_strings))]
fn all_of(alloc: Global, form: StringForm) -> Result<Vec<Description>, AllocError>
    ensures { IfOk result (λ ds. AreAllStrings form ds.items) }
{
    let mut all = Vec::with_capacity(alloc, GREATEST_LENGTH as usize)?;
    for shorter in 0..GREATEST_LENGTH {
        all.push(form.of_length(shorter + 1))?;
    }
    Ok(all)
}

/// The same where they are asked for, and else none.
#[tactic(auto, using(crate::proofs::StringLemmas::no_strings))]
fn made_if(alloc: Global, asked: bool, form: StringForm) -> Result<Vec<Description>, AllocError>
    ensures strings { IfOk result (λ ds. AreStrings form ds.items) }
    ensures all { IfOk result (λ ds. asked ≡ true → length ds.items ≡ 32767) }
{
    if !asked {
        return Ok(Vec::new(alloc));
    }
    all_of(alloc, form)
}

impl StringDescriptions {
    /// Those of the forms that are asked for.
    pub fn new(alloc: Global, forms: StringForms) -> Result<StringDescriptions, AllocError>
        ensures { IfOk result (λ s. (form : Form) → asks_for forms form ≡ true → has_form s form ≡ true) }
    {
        let characters = made_if(alloc, forms.characters, StringForm::Character)?;
        let varying = made_if(alloc, forms.varying, StringForm::Varying)?;
        let bits = made_if(alloc, forms.bits, StringForm::Bit)?;
        let descriptions = StringDescriptions {
            characters,
            varying,
            bits,
        };
        Ok(descriptions)
    }

    /// Those of a form.
    fn of_form(&self, form: StringForm) -> &[Description]
        ensures is { result.now ≡ listed self.now form }
        ensures strings { AreStrings form result.now }
    {
        match form {
            StringForm::Character => &self.characters,
            StringForm::Varying => &self.varying,
            StringForm::Bit => &self.bits,
        }
    }

    /// The one of a form and of a length from 1 to 32,767.
    pub fn of(&self, form: StringForm, length: u16) -> &Description
        requires has { has_form self.now form ≡ true }
        requires some { 1 ≤ length }
        requires few { length ≤ 32767 }
        ensures { description_view result.now ≡ string_of form length }
    {
        let all = self.of_form(form);
        let at = length as usize - 1;
        &all[at]
    }
}

/// How long a dummy argument for so many elements is: of one element for none. `None` where no string may have so many.
fn dummy_length(elements: usize) -> Option<u16>
    ensures { MatchOption result (32767 < elements) (IsDummyLength elements) }
{
    if elements > GREATEST_LENGTH as usize {
        return None;
    }
    Some((elements as u16).max(1))
}

/// A dummy argument for characters, whose length stays.
#[tactic(auto, using(crate::proofs::StringLemmas::fixed_made, crate::proofs::StringLemmas::fixed_too_long))]
fn fixed_string(mut text: Vec<u8>) -> Result<DummyString, StoreFault>
    ensures { DummyMade forms.Character (plain.Characters text.items) result }
{
    match dummy_length(text.len()) {
        Some(length) => {
            text.resize(length as usize, b' ')?;
            Ok(DummyString {
                length,
                value: Value::Characters(text),
            })
        }
        None => Err(StoreFault::NoRule),
    }
}

/// A dummy argument for characters, whose length may change: it holds them as they are.
#[tactic(auto, using(crate::proofs::StringLemmas::varying_made, crate::proofs::StringLemmas::varying_too_long))]
fn varying_string(text: Vec<u8>) -> Result<DummyString, StoreFault>
    ensures { DummyMade forms.Varying (plain.Characters text.items) result }
{
    match dummy_length(text.len()) {
        Some(length) => Ok(DummyString {
            length,
            value: Value::Characters(text),
        }),
        None => Err(StoreFault::NoRule),
    }
}

/// A dummy argument for bits.
#[tactic(auto, using(crate::proofs::StringLemmas::bits_made, crate::proofs::StringLemmas::bits_too_long))]
fn bit_string(alloc: Global, bits: &Bits) -> Result<DummyString, StoreFault>
    ensures { DummyMade forms.Bit (plain.Bits bits.now) result }
{
    match dummy_length(bits.length()) {
        Some(length) => {
            let fitted = bit::fit(alloc, bits, length as usize)?;
            Ok(DummyString {
                length,
                value: Value::Bits(fitted),
            })
        }
        None => Err(StoreFault::NoRule),
    }
}

/// A dummy argument for characters, if a form is one of characters.
fn text_string(form: StringForm, text: Vec<u8>) -> Result<DummyString, StoreFault>
    ensures { DummyMade form (plain.Characters text.items) result }
{
    match form {
        StringForm::Character => fixed_string(text),
        StringForm::Varying => varying_string(text),
        StringForm::Bit => Err(StoreFault::NoRule),
    }
}

/// A dummy argument for bits, if a form is that of bits.
fn bits_of_form(alloc: Global, form: StringForm, bits: &Bits) -> Result<DummyString, StoreFault>
    ensures { DummyMade form (plain.Bits bits.now) result }
{
    match form {
        StringForm::Character => Err(StoreFault::NoRule),
        StringForm::Varying => Err(StoreFault::NoRule),
        StringForm::Bit => bit_string(alloc, bits),
    }
}

/// A dummy argument for a value, if that is a string of this form.
#[tactic(auto, using(crate::proofs::StringLemmas::no_number_made, crate::proofs::StringLemmas::no_locator_made))]
fn dummy_string(alloc: Global, form: StringForm, value: Value) -> Result<DummyString, StoreFault>
    ensures { DummyMade form (value_view value) result }
{
    match value {
        Value::Characters(text) => text_string(form, text),
        Value::Bits(bits) => bits_of_form(alloc, form, &bits),
        Value::Number(_) => Err(StoreFault::NoRule),
        Value::Locator(_) => Err(StoreFault::NoRule),
    }
}

impl<'m> Storage<'m> {
    /// A new generation for a dummy argument that is a string of a form and as long as its value: one element for an
    /// empty one, where VARYING keeps the empty value. The newest activation has to note it among those that it
    /// prepares. `NoRule` where the value is no such string, or longer than 32,767; else `StorageLimit` where there is
    /// no room for it, or `OutOfMemory`. After an error nothing has changed.
    pub fn push_string(
        &mut self,
        alloc: Global,
        strings: &'m StringDescriptions,
        form: StringForm,
        value: Value,
    ) -> Result<Place<'m>, StoreFault>
        requires { has_form strings.now form ≡ true }
        ensures made { (w : World) → MatchResult result
            (λ place. string_dummy_of form (value_view value) (with_storage self.old w)
            ≡ Yields (place_view place) (in_newest (λ a. record a { pending = a.pending ++ place.generation ∷ [] })
            (with_storage self.new w)))
            (λ _. Answered place_view result (with_storage self.old w) (with_storage self.new w)
            (string_dummy_of form (value_view value) (with_storage self.old w))) }
        ensures err { OnErr result (SameStorage self.old self.new) }
    {
        match dummy_string(alloc, form, value) {
            Ok(made) => {
                let description = strings.of(form, made.length);
                self.make_dummy(alloc, description, made.value)
            }
            Err(fault) => Err(fault),
        }
    }
}
