//! Which code is too long.
ghost use Rattle.std.specs.Prelude.{◌≡◌, ◌+◌, ◌≤◌, ◌||◌, ◌&&◌, not, nat_lt, min, map, length};
ghost use Rattle.std.specs.List.{list_all, list_any, sum_by};
ghost use Rattle.pli_map.specs.views.DescriptionView.{description_view, members_view};
ghost use Rattle.pli_map.specs.views.ParameterView.{type_seen, type_view};
ghost use Rattle.pli_type_tree.specs.views.GlobalView.{global_group_view, globals_view};
ghost use Rattle.pli_type_tree.specs.views.TemplateView.{groups_view};
ghost use Rattle.pli_type_tree.specs.views.TypedView.{unit_view};
ghost use Rattle.pli_gen_emit.specs.Encoding.{code_of};
ghost use Rattle.pli_gen_emit.specs.answers.Units.{IsEmitted};
ghost use Rattle.pli_gen.specs.Limits.{is_over, has_many_members, has_many_types, one_has_many, is_too_long};
ghost use Rattle.pli_gen.specs.answers.Pieces.{takes_many_slots, template_bytes, block_fits};
ghost use Rattle.pli_gen_emit.specs.views.BlockView.{block_tree, block_trees};
ghost use Rattle.pli_type_keys.specs.views.KeyView.{templated};
ghost use Rattle.pli_gen_emit.specs.views.TableView.{tables_view};

use pli_gen_emit::{BlockSource, Emitted, NumberedTables};
use pli_map::{Description, ParameterType, TypeRef, far_size};
use pli_type_keys::TemplateKey;
use pli_type_tree::{GlobalGroup, TypedUnit, VariableGroup};

/// The greatest number of entries of a table of a unit, of slots of a block and of members of a structure (own).
const ENTRY_LIMIT: usize = 65_535;

/// The greatest number in a field of one byte.
const BYTE_LIMIT: usize = 255;

/// The greatest number of bytes of templates that have initial values (own).
const INITIAL_LIMIT: u64 = 16_777_216;

/// Whether so many slots and these variables come to more than the limit.
fn has_many_variables(slots: usize, groups: &[VariableGroup]) -> bool
    ensures { result ≡ nat_lt 65535 (slots + length (groups_view groups.now)) }
{
    if slots > ENTRY_LIMIT {
        return true;
    }
    let mut left = ENTRY_LIMIT - slots;
    for group in groups {
        if group.count > left {
            return true;
        }
        left -= group.count;
    }
    false
}

/// Whether a block has too many slots.
fn has_wide_block(blocks: &[BlockSource<'_>]) -> bool
    ensures { result ≡ list_any takes_many_slots (block_trees blocks.now) }
{
    for block in blocks {
        if has_many_variables(block.parameters, block.head.variables.as_slice()) {
            return true;
        }
    }
    false
}

/// Whether a structure somewhere in a description has too many members.
#[cycle(members)]
fn has_many_members(description: &Description) -> bool
    ensures { result ≡ has_many_members (description_view description.now) }
{
    match description {
        Description::Array { element, .. } => has_many_members(element),
        Description::Structure(members) => members.len() > ENTRY_LIMIT || one_has_many(members),
        _ => false,
    }
}

/// Whether one of the structures somewhere in descriptions has too many members.
#[cycle(members)]
fn one_has_many(members: &[Description]) -> bool
    ensures { result ≡ one_has_many (members_view members.now) }
{
    for member in members {
        if has_many_members(member) {
            return true;
        }
    }
    false
}

/// The same of what is stated of a type. No parameter is a structure in which a `*` stands.
#[cycle(types)]
fn has_many_within(of: &ParameterType) -> bool
    ensures { result ≡ has_many_types (type_view of.now) }
{
    match of {
        ParameterType::Stated(description) => has_many_members(description),
        ParameterType::AnyString(_) => false,
        ParameterType::AnyArray { element, .. } => has_many_within(element),
        ParameterType::ArrayOf { element, .. } => has_many_within(element),
        ParameterType::StructureOf(_) => true,
    }
}

/// The same of a type that is lent.
fn has_many_types(of: TypeRef<'_>) -> bool
    ensures { result ≡ has_many_types (type_seen of.entry) }
{
    match of {
        TypeRef::Stated(description) => has_many_members(description),
        TypeRef::Open(of) => has_many_within(of),
    }
}

/// Whether a type in a table has too many members somewhere.
fn has_wide_structure(tables: &NumberedTables<'_>) -> bool
    ensures { result ≡ list_any has_many_types (tables_view tables.now).descriptions }
{
    for key in tables.descriptions.as_slice() {
        if has_many_types(key.of) {
            return true;
        }
    }
    false
}

/// The bytes of a template that has initial values; 4,294,967,296 stands for every greater number.
fn template_bytes(template: TemplateKey<'_>) -> u64
    ensures { result ≡ min (template_bytes (templated template.entry)) 4294967296 }
{
    if template.initial.is_empty() {
        0
    } else {
        far_size(template.description)
    }
}

/// Whether templates with initial values have too many bytes.
fn has_many_bytes(tables: &NumberedTables<'_>) -> bool
    ensures { result ≡ nat_lt 16777216 (sum_by template_bytes (tables_view tables.now).templates) }
{
    let mut bytes: u64 = 0;
    for template in tables.templates.as_slice() {
        bytes += template_bytes(*template);
        if bytes > INITIAL_LIMIT {
            return true;
        }
    }
    false
}

/// Whether one of a unit's tables has too many entries.
fn has_long_table(tables: &NumberedTables<'_>) -> bool
    ensures { let t = tables_view tables.now in
        result ≡ is_over t.descriptions || is_over t.templates || is_over t.values }
{
    tables.descriptions.len() > ENTRY_LIMIT
        || tables.templates.len() > ENTRY_LIMIT
        || tables.values.len() > ENTRY_LIMIT
}

/// Whether the numbers of a block are within their fields. The greatest number of two bytes stands for no block around.
fn block_fits(block: BlockSource<'_>) -> bool
    ensures { result ≡ block_fits (block_tree block.entry) }
{
    let parent_fits = match block.parent {
        None => true,
        Some(parent) => parent < ENTRY_LIMIT,
    };
    parent_fits && block.parameters <= BYTE_LIMIT && block.head.temporaries <= ENTRY_LIMIT
}

/// Whether those of each block are.
fn blocks_fit(blocks: &[BlockSource<'_>]) -> bool
    ensures { result ≡ list_all block_fits (block_trees blocks.now) }
{
    for block in blocks {
        if !block_fits(*block) {
            return false;
        }
    }
    true
}

/// How many globals a group has.
fn global_count(group: &GlobalGroup) -> usize
    ensures { result ≡ length (global_group_view group.now) }
{
    match group {
        GlobalGroup::OwnVariables { variables, .. } => variables.count,
        GlobalGroup::ExternalVariables { names, .. } => names.len(),
        GlobalGroup::EntryPoints { names, .. } => names.len(),
    }
}

/// Whether there are too many globals.
fn has_many_globals(groups: &[GlobalGroup]) -> bool
    ensures { result ≡ is_over (globals_view groups.now) }
{
    let mut left = ENTRY_LIMIT;
    for group in groups {
        let count = global_count(group);
        if count > left {
            return true;
        }
        left -= count;
    }
    false
}

/// Whether a unit has too many globals, too many blocks or too many instructions.
fn has_long_list(groups: &[GlobalGroup], emitted: &Emitted<'_>) -> bool
    ensures { let e = emitted.now in
        result ≡ is_over (globals_view groups.now) || is_over e.blocks.items || is_over e.emitter.code.items }
{
    has_many_globals(groups)
        || emitted.blocks.len() > ENTRY_LIMIT
        || emitted.emitter.code.len() > ENTRY_LIMIT
}

/// Whether a number of a unit's code is wider than its field.
fn has_wide_number(emitted: &Emitted<'_>) -> bool
    ensures { let e = emitted.now in
        result ≡ not (list_all block_fits (block_trees e.blocks.items) && not e.emitter.is_wide) }
{
    !(blocks_fit(emitted.blocks.as_slice()) && !emitted.emitter.is_wide)
}

/// Whether a part of a unit is too large: a block, a structure, all initial values, or a number.
fn has_large_part(emitted: &Emitted<'_>) -> bool
    ensures { let e = emitted.now in
        let t = tables_view e.emitter.tables in
        let blocks = block_trees e.blocks.items in
        result
        ≡ list_any takes_many_slots blocks || list_any has_many_types t.descriptions
        || nat_lt 16777216 (sum_by template_bytes t.templates)
        || not (list_all block_fits blocks && not e.emitter.is_wide) }
{
    has_wide_block(emitted.blocks.as_slice())
        || has_wide_structure(&emitted.emitter.tables)
        || has_many_bytes(&emitted.emitter.tables)
        || has_wide_number(emitted)
}

/// Whether a unit's code is too long (G1).
pub(crate) fn is_too_long(unit: &TypedUnit, emitted: &Emitted<'_>) -> bool
    requires { IsEmitted (unit_view unit.now) emitted.now }
    ensures { result ≡ is_too_long (code_of (unit_view unit.now)) }
{
    has_long_table(&emitted.emitter.tables)
        || has_long_list(unit.globals.as_slice(), emitted)
        || has_large_part(emitted)
}
