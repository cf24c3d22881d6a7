//! What the external procedure takes and gives, and the globals, with the numbers of what they name.
ghost use Rattle.std.specs.Prelude.{◌≡◌, ◌++◌, map, option_map, replicate, IfOk, OnOk};
ghost use Rattle.pli_map.specs.views.DescriptionView.{description_view};
ghost use Rattle.pli_map.specs.views.ParameterView.{type_view};
ghost use Rattle.pli_type_tree.specs.views.GlobalView.{signature_view, global_group_view, globals_view};
ghost use Rattle.pli_code.specs.CodeTables as plain;
ghost use Rattle.pli_code.specs.views.CodeView.{global_view};
ghost use Rattle.pli_gen_emit.specs.Encoding.{stated_number, signature_code, global_code, description_number};
ghost use Rattle.pli_gen_emit.specs.views.TableView.{tables_view};

use crate::numbers::Numbers;
use pli_base::Name;
use pli_code::{CodedGlobal, CodedSignature};
use pli_gen_emit::template_key;
use pli_map::{Description, ParameterType};
use pli_program::VariableKind;
use pli_type_tree::{GlobalGroup, Signature};
use std::alloc::{AllocError, Global};

/// Appends the numbers of types of parameters.
pub(crate) fn encode_types<'a>(
    numbers: Numbers<'_, 'a>,
    types: &'a [ParameterType],
    list: &mut Vec<u16>,
) -> Result<(), AllocError>
    ensures { let number = description_number (tables_view numbers.entry.tables.now) in
        OnOk result (list.new.items ≡ list.old.items ++ map number (map type_view types.now)) }
{
    for parameter in types {
        list.push(numbers.of_type(parameter.lent()))?;
    }
    Ok(())
}

/// The number of the description of a result.
pub(crate) fn result_number<'a>(
    numbers: Numbers<'_, 'a>,
    result_of: &'a Option<Description>,
) -> Option<u16>
    ensures { let number = stated_number (tables_view numbers.entry.tables.now) in
        result ≡ option_map number (option_map description_view result_of.now) }
{
    match result_of {
        None => None,
        Some(description) => Some(numbers.description(description)),
    }
}

/// Appends so many variables of the unit's own.
fn put_own(
    globals: &mut Vec<CodedGlobal>,
    kind: VariableKind,
    template: u16,
    count: usize,
) -> Result<(), AllocError>
    ensures { OnOk result
        (map global_view globals.new.items
        ≡ map global_view globals.old.items ++ replicate count (plain.OwnVariable kind template)) }
{
    for _ in 0..count {
        globals.push(CodedGlobal::OwnVariable { kind, template })?;
    }
    Ok(())
}

/// Appends external variables of these names.
fn put_external(
    globals: &mut Vec<CodedGlobal>,
    names: &[Name],
    kind: VariableKind,
    template: u16,
) -> Result<(), AllocError>
    ensures { OnOk result
        (map global_view globals.new.items
        ≡ map global_view globals.old.items ++ map (λ name. plain.ExternalVariable name kind template) names.now) }
{
    for name in names {
        globals.push(CodedGlobal::ExternalVariable {
            name: *name,
            kind,
            template,
        })?;
    }
    Ok(())
}

/// An entry of this name, which takes and gives what has these numbers.
fn entry_point(
    alloc: Global,
    name: Name,
    taken: &[u16],
    given: Option<u16>,
) -> Result<CodedGlobal, AllocError>
    ensures { IfOk result (λ coded. global_view coded
        ≡ plain.EntryPoint name (record { parameters = taken.now; result = given })) }
{
    let mut parameters = Vec::new(alloc);
    parameters.extend_from_slice(taken)?;
    Ok(CodedGlobal::EntryPoint {
        name,
        signature: CodedSignature {
            parameters,
            result: given,
        },
    })
}

/// Appends entries of these names.
fn put_entries(
    alloc: Global,
    globals: &mut Vec<CodedGlobal>,
    names: &[Name],
    taken: &[u16],
    given: Option<u16>,
) -> Result<(), AllocError>
    ensures { let coded : plain.CodedSignature = record { parameters = taken.now; result = given } in
        OnOk result
        (map global_view globals.new.items
        ≡ map global_view globals.old.items ++ map (λ name. plain.EntryPoint name coded) names.now) }
{
    for name in names {
        globals.push(entry_point(alloc, *name, taken, given)?)?;
    }
    Ok(())
}

/// Appends the entries of a group, whose signature is numbered once.
fn encode_entries<'a>(
    alloc: Global,
    numbers: Numbers<'_, 'a>,
    names: &[Name],
    signature: &'a Signature,
    globals: &mut Vec<CodedGlobal>,
) -> Result<(), AllocError>
    ensures { let coded = signature_code (tables_view numbers.entry.tables.now) (signature_view signature.now) in
        OnOk result
        (map global_view globals.new.items
        ≡ map global_view globals.old.items ++ map (λ name. plain.EntryPoint name coded) names.now) }
{
    let mut taken = Vec::new(alloc);
    encode_types(numbers, signature.parameters.as_slice(), &mut taken)?;
    let given = result_number(numbers, &signature.result);
    put_entries(alloc, globals, names, taken.as_slice(), given)
}

/// Appends the globals of a group.
fn encode_group<'a>(
    alloc: Global,
    numbers: Numbers<'_, 'a>,
    group: &'a GlobalGroup,
    globals: &mut Vec<CodedGlobal>,
) -> Result<(), AllocError>
    ensures { let code = global_code (tables_view numbers.entry.tables.now) in
        OnOk result
        (map global_view globals.new.items
        ≡ map global_view globals.old.items ++ map code (global_group_view group.now)) }
{
    match group {
        GlobalGroup::OwnVariables { kind, variables } => {
            let number = numbers.template(template_key(&variables.template));
            put_own(globals, *kind, number, variables.count)
        }
        GlobalGroup::ExternalVariables {
            names,
            kind,
            template,
        } => {
            let number = numbers.template(template_key(template));
            put_external(globals, names.as_slice(), *kind, number)
        }
        GlobalGroup::EntryPoints { names, signature } => {
            encode_entries(alloc, numbers, names.as_slice(), signature, globals)
        }
    }
}

/// Appends the globals of a unit.
pub(crate) fn encode_globals<'a>(
    alloc: Global,
    numbers: Numbers<'_, 'a>,
    groups: &'a [GlobalGroup],
    globals: &mut Vec<CodedGlobal>,
) -> Result<(), AllocError>
    ensures { let code = global_code (tables_view numbers.entry.tables.now) in
        OnOk result
        (map global_view globals.new.items
        ≡ map global_view globals.old.items ++ map code (globals_view groups.now)) }
{
    for group in groups {
        encode_group(alloc, numbers, group, globals)?;
    }
    Ok(())
}
