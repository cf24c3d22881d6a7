//! Items of DECLARE by their numbers.
ghost use Rattle.std.specs.Prelude.{◌≡◌, true, Some};
ghost use Rattle.pli_type_templates.specs.NotedNames.{IsNoted, IsSame};

/// An item of DECLARE: the number of the mark that declares it among those of its unit, and its own among the items of
/// the mark, each counted from 0.
#[derive(Clone, Copy)]
pub(crate) struct ItemNumber {
    pub mark: usize,
    pub item: usize,
}

/// Whether two items are one.
pub(crate) fn is_same_item(left: ItemNumber, right: ItemNumber) -> bool
    ensures { result ≡ true → IsSame left right }
{
    left.mark == right.mark && left.item == right.item
}

/// What is noted under a token where a name of this item is noted too: the item, or none where there are several.
pub(crate) fn noted_with(
    before: Option<Option<ItemNumber>>,
    number: ItemNumber,
) -> Option<ItemNumber>
    ensures here { IsNoted (Some result) number }
    ensures kept { (other : ItemNumber) → IsNoted before other → IsNoted (Some result) other }
{
    match before {
        None => Some(number),
        Some(None) => None,
        Some(Some(only)) => {
            if is_same_item(only, number) {
                Some(only)
            } else {
                None
            }
        }
    }
}
