//! The lists of statements round a place, with their labels.
ghost use Rattle.std.specs.Prelude.{◌≡◌, ◌<◌, ◌||◌, is_some, suc, nat_eq, option_map, IfOk, IfSome};
ghost use Rattle.std.specs.List.{list_any};
ghost use Rattle.pli_base.specs.views.StatementView as source;
ghost use Rattle.pli_type_rules.specs.StatementTyping as spec;
ghost use Rattle.pli_type_parts.specs.Around.{blocks_of, found_in, gone_into, kept_after, label_if};
ghost use Rattle.pli_type_parts.specs.views.AroundView.{lists_view};

use pli_base::statement::{Body, Statement};
use std::alloc::{AllocError, Global};

/// The labels of a list of statements: the numbers of those that have one.
#[derive(Drop)]
pub struct ListLabels {
    /// The number of the block that the list is; none where it is that of a group.
    pub block: Option<usize>,
    /// Whether that block is an ON-unit, for which the labels in groups of the block around are none.
    pub is_on_unit: bool,
    pub labels: Vec<u32>,
}

/// Whether a statement leaves nothing among the typed ones: DECLARE, and a procedure.
#[tactic(auto, using(crate::proofs::SearchLemmas::procedure_leaves))]
pub fn leaves_nothing(body: &Body) -> bool
    ensures { result ≡ spec.leaves_nothing (source.body_view body.now) }
{
    matches!(body, Body::Declare(_) | Body::Procedure(_))
}

/// Whether the label of a statement is one of its list's.
fn is_labelled(statement: &Statement) -> bool
    ensures { spec.label_of (source.statement_view statement.now) ≡ label_if result statement.now.number }
{
    match &statement.label {
        None => false,
        Some(_) => !leaves_nothing(&statement.body),
    }
}

/// The labels of a list.
pub fn labels_of(alloc: Global, statements: &[Statement]) -> Result<Vec<u32>, AllocError>
    ensures { IfOk result (λ labels. labels.items ≡ spec.labels_of (source.statements_view statements.now)) }
{
    let mut labels = Vec::new(alloc);
    for statement in statements {
        if is_labelled(statement) {
            labels.push(statement.number)?;
        }
    }
    Ok(labels)
}

/// Whether a list has a label.
fn has(list: &ListLabels, label: u32) -> bool
    ensures { result ≡ list_any (nat_eq label) list.now.labels.items }
{
    list.labels.iter().any(|other| label == *other)
}

/// One static link further outward.
fn further(outward: Option<usize>) -> Option<usize>
    requires { IfSome outward (λ links. links < 18446744073709551615) }
    ensures { result ≡ option_map suc outward }
{
    match outward {
        None => None,
        Some(links) => Some(links + 1),
    }
}

/// Whether what stands in a list is in a block, where a block may be around the list.
fn is_in_block(list: &ListLabels, is_inside: bool) -> bool
    ensures { result ≡ (is_some list.now.block || is_inside) }
{
    list.block.is_some() || is_inside
}

/// How many static links outward a label is from a list, where it is so many from the list around, and so many among
/// the labels that last in the innermost block there.
fn gone_into(list: &ListLabels, outward: Option<usize>, lasting: Option<usize>) -> Option<usize>
    requires outward { IfSome outward (λ links. links < 18446744073709551615) }
    requires lasting { IfSome lasting (λ links. links < 18446744073709551615) }
    ensures { result ≡ gone_into list.now.block list.now.is_on_unit outward lasting }
{
    match list.block {
        None => outward,
        Some(_) => further(if list.is_on_unit { lasting } else { outward }),
    }
}

/// The same where the list may have the label, in a block or in none.
fn found_in(list: &ListLabels, label: u32, is_inside: bool, outward: Option<usize>) -> Option<usize>
    ensures { result ≡ found_in label is_inside list.now.labels.items outward }
{
    if is_inside && has(list, label) {
        Some(0)
    } else {
        outward
    }
}

/// How many it is among the labels that last in the innermost block, those of its own list.
fn kept_after(list: &ListLabels, outward: Option<usize>, lasting: Option<usize>) -> Option<usize>
    ensures { result ≡ kept_after list.now.block outward lasting }
{
    match list.block {
        None => lasting,
        Some(_) => outward,
    }
}

/// How many static links outward the label of a statement is, if one of the lists has it; the lists stand in one
/// another, the outermost first. From an ON-unit no label in a group of the block around is reached.
pub fn outward_to(lists: &[ListLabels], label: u32) -> Option<usize>
    ensures { result ≡ spec.label_found (blocks_of (lists_view lists.now)) label }
{
    let mut outward = None;
    let mut lasting = None;
    let mut is_inside = false;
    for list in lists {
        let around = gone_into(list, outward, lasting);
        is_inside = is_in_block(list, is_inside);
        outward = found_in(list, label, is_inside, around);
        lasting = kept_after(list, outward, lasting);
    }
    outward
}
