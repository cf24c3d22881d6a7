//! The numbers that descriptions and templates have in their tables.
ghost use Rattle.std.specs.Prelude.{◌≡◌, ◌≤◌, length};
ghost use Rattle.pli_map.specs.views.DescriptionView.{description_view};
ghost use Rattle.pli_map.specs.views.ParameterView.{type_seen};
ghost use Rattle.pli_gen_emit.specs.Encoding.{stated_number, template_number, description_number};
ghost use Rattle.pli_gen_emit.specs.views.TableView.{tables_view};
ghost use Rattle.pli_type_keys.specs.views.KeyView.{templated};

use pli_gen_emit::NumberedTables;
use pli_map::{Description, TypeRef};
use pli_type_keys::{DescriptionKey, TemplateKey};

/// The tables of a unit, of at most 65,535 entries each.
#[derive(Clone, Copy)]
pub(crate) struct Numbers<'t, 'a> {
    pub tables: &'t NumberedTables<'a>,
    ghost few_descriptions: { length tables.now.descriptions.keys ≤ 65535 },
    ghost few_templates: { length tables.now.templates.keys ≤ 65535 },
}

impl<'a> Numbers<'_, 'a> {
    /// The number of a description.
    pub(crate) fn description(&self, description: &'a Description) -> u16
        ensures { result ≡ stated_number (tables_view self.now.tables.now) (description_view description.now) }
    {
        self.of_type(TypeRef::Stated(description))
    }

    /// The number of a type among the descriptions.
    pub(crate) fn of_type(&self, of: TypeRef<'a>) -> u16
        ensures { result ≡ description_number (tables_view self.now.tables.now) (type_seen of.entry) }
    {
        let table = &self.tables.descriptions;
        table
            .get_index_of(&DescriptionKey { of })
            .unwrap_or(table.len()) as u16
    }

    /// The number of a template.
    pub(crate) fn template(&self, template: TemplateKey<'a>) -> u16
        ensures { result ≡ template_number (tables_view self.now.tables.now) (templated template.entry) }
    {
        let table = &self.tables.templates;
        table.get_index_of(&template).unwrap_or(table.len()) as u16
    }
}
