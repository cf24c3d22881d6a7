//! The members of variables.
ghost use Rattle.std.specs.Prelude.{◌≡◌, ◌<◌, ◌++◌, ◌∷◌, [], IfOk, OnOk, map, option_map, slice_set, get_or, length};
ghost use Rattle.pli_declare.specs.views.SymbolView.{symbol_view, symbol_kind_view};
ghost use Rattle.pli_type_templates.specs.Groups.{AreMembers, member_in, with_member};
ghost use Rattle.pli_type_templates.specs.views.ItemView.{item_view, owned_view, rows_view};

use crate::items::ValuedItem;
use pli_declare::{Symbol, SymbolKind};
use std::alloc::{AllocError, Global};

/// A member, and the number of the variable that it is a member of.
#[derive(Clone, Copy)]
pub(crate) struct Owned<'a> {
    pub root: usize,
    pub item: ValuedItem<'a>,
}

/// A member, with the values in its INITIAL; none of anything else.
fn member_in<'a>(symbol: &Symbol<'a>) -> Option<Owned<'a>>
    ensures { option_map owned_view result ≡ member_in (symbol_kind_view symbol.now.kind) }
{
    match symbol.kind {
        SymbolKind::Member {
            root,
            path,
            initial,
            ..
        } => {
            let item = ValuedItem {
                path,
                values: initial,
            };
            Some(Owned { root, item })
        }
        _ => None,
    }
}

/// Adds an item to those of its root.
fn add<'a>(
    members: &mut Vec<Vec<ValuedItem<'a>>>,
    root: usize,
    item: ValuedItem<'a>,
) -> Result<(), AllocError>
    requires { root < length members.old.items }
    ensures { OnOk result (rows_view members.new.items
        ≡ slice_set (rows_view members.old.items) root
        (get_or (rows_view members.old.items) root [] ++ item_view item.entry ∷ [])) }
{
    members[root].push(item)?;
    Ok(())
}

/// Adds a symbol that is a member to those of its root, if there is one of that number.
fn add_symbol<'a>(
    members: &mut Vec<Vec<ValuedItem<'a>>>,
    symbol: &Symbol<'a>,
) -> Result<(), AllocError>
    ensures { OnOk result (rows_view members.new.items
        ≡ with_member (rows_view members.old.items) (member_in (symbol_kind_view symbol.now.kind))) }
{
    let Some(member) = member_in(symbol) else {
        return Ok(());
    };
    if member.root >= members.len() {
        return Ok(());
    }
    add(members, member.root, member.item)?;
    Ok(())
}

/// The members of each symbol, in the order of the text, in one pass.
pub(crate) fn members_by_root<'a>(
    alloc: Global,
    symbols: &[Symbol<'a>],
) -> Result<Vec<Vec<ValuedItem<'a>>>, AllocError>
    ensures { IfOk result (λ made. AreMembers (rows_view made.items) (map symbol_view symbols.now)) }
{
    let mut members = Vec::with_capacity(alloc, symbols.len())?;
    for _ in 0..symbols.len() {
        members.push(Vec::new(alloc))?;
    }
    for symbol in symbols {
        add_symbol(&mut members, symbol)?;
    }
    Ok(members)
}
