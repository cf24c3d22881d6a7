//! The tables of a unit's code: entries numbered by first use.
ghost use Rattle.std.specs.Prelude.{◌≡◌, ◌∷◌, ◌++◌, [], false, map, min, replicate};
ghost use Rattle.std.specs.List.{flat_map};
ghost use Rattle.pli_map.specs.ParameterTypes.{Stated};
ghost use Rattle.pli_map.specs.views.DescriptionView.{description_view};
ghost use Rattle.pli_map.specs.views.ParameterView.{type_seen, type_view};
ghost use Rattle.pli_value.specs.Value.{value_view};
ghost use Rattle.pli_type_tree.specs.views.GlobalView.{signature_view, global_group_view, globals_view};
ghost use Rattle.pli_type_tree.specs.views.TemplateView.{group_view, groups_view, template_view};
ghost use Rattle.pli_type_tree.specs.views.TypedView.{unit_view};
ghost use Rattle.pli_type_tree.specs.TypedTree as plain;
ghost use Rattle.pli_gen_emit.specs.views.BlockView.{block_trees};
ghost use Rattle.pli_gen_emit.specs.Encoding.{signature_descriptions, global_descriptions, global_templates};
ghost use Rattle.pli_gen_emit.specs.Encoding.{block_templates, number_in};
ghost use Rattle.pli_gen_emit.specs.Encoding.{stated_number, template_number, description_number};
ghost use Rattle.pli_gen_emit.specs.answers.Numbering.{Numbers};
ghost use Rattle.pli_type_keys.specs.Same.{same_value};
ghost use Rattle.pli_type_keys.specs.views.KeyView.{templated};
ghost use Rattle.pli_gen_emit.specs.views.TableView.{tables_view};

use crate::block::BlockSource;
use crate::fields::short;
use indexmap::IndexSet;
use pli_base::Name;
use pli_map::{Description, ParameterType, TypeRef};
use pli_type_keys::{DescriptionKey, TemplateKey, ValueKey};
use pli_type_tree::{GlobalGroup, Signature, Template, TypedUnit, VariableGroup};
use pli_value::Value;

/// The tables of a unit's code, as they lie in the typed tree (types with a `*` among the descriptions), and whether
/// memory was wanting for an entry. So numbering has no path that fails: what was numbered counts only if memory was
/// not wanting, which is asked once, at the end.
#[derive(Drop)]
pub struct NumberedTables<'a> {
    pub descriptions: IndexSet<DescriptionKey<'a>>,
    pub templates: IndexSet<TemplateKey<'a>>,
    pub values: IndexSet<ValueKey<'a>>,
    pub lacks_memory: bool,
}

/// Puts a type at the end of the table of descriptions, if that lacks it, and gives its number, cut to the greatest of
/// two bytes.
fn number_type<'a>(tables: &mut NumberedTables<'a>, of: TypeRef<'a>) -> u16
    ensures numbers { Numbers tables.old tables.new (type_seen of.entry ∷ []) [] [] }
    ensures number { tables.new.lacks_memory ≡ false →
        result ≡ min (description_number (tables_view tables.old) (type_seen of.entry)) 65535 }
{
    let key = DescriptionKey { of };
    let Ok((number, _)) = tables.descriptions.insert_full(key) else {
        tables.lacks_memory = true;
        return 0;
    };
    short(number)
}

/// The same of a description.
pub(crate) fn number_description<'a>(
    tables: &mut NumberedTables<'a>,
    description: &'a Description,
) -> u16
    ensures numbers { Numbers tables.old tables.new (Stated (description_view description.now) ∷ []) [] [] }
    ensures number { tables.new.lacks_memory ≡ false →
        result ≡ min (stated_number (tables_view tables.old) (description_view description.now)) 65535 }
{
    number_type(tables, TypeRef::Stated(description))
}

/// Puts a template at the end of its table, if that lacks it, and gives its number, cut to the greatest of two bytes.
pub(crate) fn number_template<'a>(tables: &mut NumberedTables<'a>, template: TemplateKey<'a>) -> u16
    ensures numbers { Numbers tables.old tables.new [] (templated template.entry ∷ []) [] }
    ensures number { tables.new.lacks_memory ≡ false →
        result ≡ min (template_number (tables_view tables.old) (templated template.entry)) 65535 }
{
    let Ok((number, _)) = tables.templates.insert_full(template) else {
        tables.lacks_memory = true;
        return 0;
    };
    short(number)
}

/// Puts a value at the end of its table, if that lacks it, and gives its number, cut to the greatest of two bytes.
pub(crate) fn number_value<'a>(tables: &mut NumberedTables<'a>, value: &'a Value) -> u16
    ensures numbers { Numbers tables.old tables.new [] [] (value_view value.now ∷ []) }
    ensures number { tables.new.lacks_memory ≡ false →
        result ≡ min (number_in same_value (tables_view tables.old).values (value_view value.now)) 65535 }
{
    let Ok((number, _)) = tables.values.insert_full(ValueKey { value }) else {
        tables.lacks_memory = true;
        return 0;
    };
    short(number)
}

/// A template as an entry of a table.
pub fn template_key(template: &Template) -> TemplateKey<'_>
    ensures { templated result ≡ template_view template.now }
{
    TemplateKey {
        description: &template.description,
        initial: template.initial.as_slice(),
    }
}

/// Numbers a template that is used, and its description, and gives the template's number, cut to the greatest of two
/// bytes.
pub(crate) fn number_used<'a>(tables: &mut NumberedTables<'a>, template: &'a Template) -> u16
    ensures numbers { let used = template_view template.now in
        Numbers tables.old tables.new (Stated used.description ∷ []) (used ∷ []) [] }
    ensures number { tables.new.lacks_memory ≡ false →
        result ≡ min (template_number (tables_view tables.old) (template_view template.now)) 65535 }
{
    number_description(tables, &template.description);
    number_template(tables, template_key(template))
}

/// Numbers the description and the template of so many variables, if there is one.
fn number_repeated<'a>(tables: &mut NumberedTables<'a>, count: usize, template: &'a Template)
    ensures { let templates = replicate count (template_view template.now) in
        Numbers tables.old tables.new (map (λ t. Stated t.description) templates) templates [] }
{
    if count == 0 {
        return;
    }
    number_used(tables, template);
}

/// Numbers the description and the template of the variables of a group.
fn number_group<'a>(tables: &mut NumberedTables<'a>, group: &'a VariableGroup)
    ensures { let templates = group_view group.now in
        Numbers tables.old tables.new (map (λ t. Stated t.description) templates) templates [] }
{
    number_repeated(tables, group.count, &group.template);
}

/// Numbers the descriptions and the templates of variables.
fn number_variables<'a>(tables: &mut NumberedTables<'a>, groups: &'a [VariableGroup])
    ensures { let templates = groups_view groups.now in
        Numbers tables.old tables.new (map (λ t. Stated t.description) templates) templates [] }
{
    for group in groups {
        number_group(tables, group);
    }
}

/// The same for the variables of blocks.
fn number_block_variables<'a>(tables: &mut NumberedTables<'a>, blocks: &[BlockSource<'a>])
    ensures { let templates = block_templates (block_trees blocks.now) in
        Numbers tables.old tables.new (map (λ t. Stated t.description) templates) templates [] }
{
    for block in blocks {
        number_variables(tables, block.head.variables.as_slice());
    }
}

/// Numbers types of parameters.
fn number_types<'a>(tables: &mut NumberedTables<'a>, types: &'a [ParameterType])
    ensures { Numbers tables.old tables.new (map type_view types.now) [] [] }
{
    for parameter in types {
        number_type(tables, parameter.lent());
    }
}

/// Numbers what a procedure takes and gives.
fn number_signature<'a>(tables: &mut NumberedTables<'a>, signature: &'a Signature)
    ensures { Numbers tables.old tables.new (signature_descriptions (signature_view signature.now)) [] [] }
{
    number_types(tables, signature.parameters.as_slice());
    if let Some(description) = &signature.result {
        number_description(tables, description);
    }
}

/// Numbers what entries of these names take and give, if there is one.
fn number_entries<'a>(tables: &mut NumberedTables<'a>, names: &[Name], signature: &'a Signature)
    ensures { let globals = map (λ name. plain.EntryPoint name (signature_view signature.now)) names.now in
        Numbers tables.old tables.new (flat_map global_descriptions globals) (flat_map global_templates globals) [] }
{
    if names.is_empty() {
        return;
    }
    number_signature(tables, signature);
}

/// Numbers what the globals of a group name.
fn number_global_group<'a>(tables: &mut NumberedTables<'a>, group: &'a GlobalGroup)
    ensures { let globals = global_group_view group.now in
        Numbers tables.old tables.new (flat_map global_descriptions globals) (flat_map global_templates globals) [] }
{
    match group {
        GlobalGroup::OwnVariables { variables, .. } => number_group(tables, variables),
        GlobalGroup::ExternalVariables {
            names,
            template,
            ..
        } => number_repeated(tables, names.len(), template),
        GlobalGroup::EntryPoints { names, signature } => {
            number_entries(tables, names.as_slice(), signature);
        }
    }
}

/// Numbers what globals name.
fn number_globals<'a>(tables: &mut NumberedTables<'a>, groups: &'a [GlobalGroup])
    ensures { let globals = globals_view groups.now in
        Numbers tables.old tables.new (flat_map global_descriptions globals) (flat_map global_templates globals) [] }
{
    for group in groups {
        number_global_group(tables, group);
    }
}

/// Numbers what a unit with these blocks names, but for its instructions.
pub(crate) fn number_unit<'a>(
    tables: &mut NumberedTables<'a>,
    unit: &'a TypedUnit,
    blocks: &[BlockSource<'a>],
)
    ensures { let u = unit_view unit.now in
        let variables = block_templates (block_trees blocks.now) in
        Numbers tables.old tables.new
        (signature_descriptions u.signature ++ flat_map global_descriptions u.globals
        ++ map (λ t. Stated t.description) variables)
        (flat_map global_templates u.globals ++ variables) [] }
{
    number_signature(tables, &unit.signature);
    number_globals(tables, unit.globals.as_slice());
    number_block_variables(tables, blocks);
}
