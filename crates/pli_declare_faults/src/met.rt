//! The names of locators and areas in attributes: whether they are good (A12), and what they mean.
ghost use Rattle.std.specs.Prelude.{◌≡◌, ◌∷◌, [], map};
ghost use Rattle.std.specs.List.{flat_map, list_all};
ghost use Rattle.pli_base.specs.views.DeclarationView.{simple_view, described_view, parameter_view, attribute_view};
ghost use Rattle.pli_base.specs.views.StatementView.{unit_view};
ghost use Rattle.pli_declare_outline.specs.views.OutlineView.{outline_view};
ghost use Rattle.pli_declare.specs.AttributeNames.{plain_of, simple_of};
ghost use Rattle.pli_declare.specs.Declarations.{returned_by};
ghost use Rattle.pli_declare.specs.Places.{is_locator, is_area};
ghost use Rattle.pli_declare.specs.Resolution.{is_good, simple_is_good, described_is_good, attribute_is_good};
ghost use Rattle.pli_declare.specs.Resolution.{returned_are};
ghost use Rattle.pli_declare_faults.specs.answers.Answers.{IsLookedUp};
ghost use Rattle.pli_declare_faults.specs.answers.Meeting.{Meets, nothing_met};

use crate::known::Known;
use crate::look_up::{Looked, look_up};
use pli_base::Name;
use pli_base::declaration::{Attribute, DescribedAttribute, ParameterDescription, SimpleAttribute};
use pli_base::statement::{Procedure, ProcedureOption};
use pli_declare_variables::options_of;

/// What names mean, and whether BASED and OFFSET may name it.
#[derive(Clone, Copy)]
struct Meant {
    looked: Looked,
    is_locator: bool,
    is_area: bool,
}

/// What was met in attributes: whether all names in them are good, and what those of the first area and of the first
/// locator mean.
#[derive(Clone, Copy)]
pub struct Met {
    pub are_good: bool,
    pub area: Option<Looked>,
    pub locator: Option<Looked>,
}

impl Met {
    /// Nothing was met.
    fn nothing() -> Met
        ensures { result ≡ nothing_met }
    {
        Met {
            are_good: true,
            area: None,
            locator: None,
        }
    }
}

impl Known<'_> {
    /// What names in a block mean.
    #[tactic(auto, using(crate::proofs::Goodness::found_fits, crate::proofs::Goodness::several_fit, crate::proofs::Goodness::nothing_fits, crate::proofs::Goodness::unit_is_no_locator, crate::proofs::Goodness::unit_is_no_area))]
    fn meant(&self, block: usize, names: &[Name]) -> Meant
        ensures looked { IsLookedUp result.looked (outline_view self.now.scopes.outline.now) block names.now }
        ensures locator { result.is_locator ≡ is_good (outline_view self.now.scopes.outline.now) block is_locator
            names.now }
        ensures area { result.is_area ≡ is_good (outline_view self.now.scopes.outline.now) block is_area names.now }
    {
        let looked = look_up(&self.scopes, block, names);
        match looked {
            Looked::Found {
                block: Some(block),
                number,
            } => {
                let judged = self.judged(block, number);
                Meant {
                    looked,
                    is_locator: judged.is_locator,
                    is_area: judged.is_area,
                }
            }
            Looked::Found { block: None, .. } | Looked::Ambiguous | Looked::NotDeclared => Meant {
                looked,
                is_locator: false,
                is_area: false,
            },
        }
    }

    /// What is met up to an attribute, of what was met before it.
    fn meet_simple(&self, block: usize, attribute: &SimpleAttribute, met: Met) -> Met
        ensures { let o = outline_view self.now.scopes.outline.now in
            Meets met result o block (simple_is_good o block (simple_view attribute.now))
            (simple_view attribute.now ∷ []) }
    {
        match attribute {
            SimpleAttribute::Offset(Some(name)) => {
                let meant = self.meant(block, &[*name]);
                Met {
                    are_good: met.are_good && meant.is_area,
                    area: Some(met.area.unwrap_or(meant.looked)),
                    locator: met.locator,
                }
            }
            SimpleAttribute::Based(Some(names)) => {
                let meant = self.meant(block, names.as_slice());
                Met {
                    are_good: met.are_good && meant.is_locator,
                    area: met.area,
                    locator: Some(met.locator.unwrap_or(meant.looked)),
                }
            }
            _ => met,
        }
    }

    /// The same of an attribute of a description.
    fn meet_plain(&self, block: usize, attribute: &DescribedAttribute, met: Met) -> Met
        ensures { let o = outline_view self.now.scopes.outline.now in
            Meets met result o block (described_is_good o block (described_view attribute.now))
            (plain_of (described_view attribute.now)) }
    {
        match attribute {
            DescribedAttribute::Simple(attribute) => self.meet_simple(block, attribute, met),
            DescribedAttribute::Entry | DescribedAttribute::Returns => met,
        }
    }

    /// What is met up to the last attribute of a description.
    fn meet_described(&self, block: usize, attributes: &[DescribedAttribute], before: Met) -> Met
        ensures { let o = outline_view self.now.scopes.outline.now in
            Meets before result o block (list_all (described_is_good o block) (map described_view attributes.now))
            (flat_map plain_of (map described_view attributes.now)) }
    {
        let mut met = before;
        for attribute in attributes {
            met = self.meet_plain(block, attribute, met);
        }
        met
    }

    /// Whether the names in descriptions of parameters are good.
    fn descriptions_are_good(&self, block: usize, descriptions: &[ParameterDescription]) -> bool
        ensures { result ≡ list_all (λ d. list_all (described_is_good (outline_view self.now.scopes.outline.now) block)
            d.attributes) (map parameter_view descriptions.now) }
    {
        for description in descriptions {
            let attributes = description.attributes.as_slice();
            if !self
                .meet_described(block, attributes, Met::nothing())
                .are_good
            {
                return false;
            }
        }
        true
    }

    /// What is met up to an attribute of an item, of what was met before it. Descriptions of parameters name no area or
    /// locator of the item's own.
    fn meet_attribute(&self, block: usize, attribute: &Attribute, met: Met) -> Met
        ensures { let o = outline_view self.now.scopes.outline.now in
            Meets met result o block (attribute_is_good o block (attribute_view attribute.now))
            (simple_of (attribute_view attribute.now)) }
    {
        match attribute {
            Attribute::Simple(attribute) => self.meet_simple(block, attribute, met),
            Attribute::Entry(None) => met,
            Attribute::Entry(Some(descriptions)) => Met {
                are_good: met.are_good
                    && self.descriptions_are_good(block, descriptions.as_slice()),
                area: met.area,
                locator: met.locator,
            },
            Attribute::Returns(attributes) => {
                self.meet_described(block, attributes.as_slice(), met)
            }
        }
    }

    /// What is met in the attributes of an item.
    pub(crate) fn meet_attributes(&self, block: usize, attributes: &[Attribute]) -> Met
        ensures { let o = outline_view self.now.scopes.outline.now in
            Meets nothing_met result o block (list_all (attribute_is_good o block)
            (map attribute_view attributes.now)) (flat_map simple_of (map attribute_view attributes.now)) }
    {
        let mut met = Met::nothing();
        for attribute in attributes {
            met = self.meet_attribute(block, attribute, met);
        }
        met
    }

    /// What is met in the RETURNS of a procedure.
    pub(crate) fn meet_returned(&self, block: usize, procedure: &Procedure) -> Met
        ensures { let o = outline_view self.now.scopes.outline.now in
            let heading = (unit_view procedure.now).heading in
            Meets nothing_met result o block (returned_are (list_all (described_is_good o block)) heading)
            (flat_map plain_of (flat_map (λ attributes. attributes) (returned_by heading.options))) }
    {
        let mut met = Met::nothing();
        let options = options_of(procedure);
        for option in options {
            if let ProcedureOption::Returns(attributes) = option {
                met = self.meet_described(block, attributes.as_slice(), met);
            }
        }
        met
    }
}
