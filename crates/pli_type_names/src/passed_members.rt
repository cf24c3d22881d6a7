//! Members of a structure, one after the other.
ghost use Rattle.std.specs.Prelude.{◌≡◌, ◌<◌, ◌≤◌, Some, length, take};
ghost use Rattle.pli_map.specs.Parts.{member_after};
ghost use Rattle.pli_map.specs.Sizes.{end_after};
ghost use Rattle.pli_map.specs.views.DescriptionView.{members_view};
ghost use Rattle.pli_map.specs.views.PartView.{part_view as placed_view};

use pli_map::{Description, PlacedPart, alignment, size};

/// The members of a structure, the first of which are passed.
#[derive(Clone, Copy)]
pub(crate) struct PassedMembers<'a> {
    pub members: &'a Vec<Description>,
    /// How many are passed.
    pub count: usize,
    /// Where the last of those ends, in bytes after the beginning of the structure.
    end: u32,
    ghost ends: { end ≡ end_after 0 (members_view (take count members.now.items)) },
    ghost in_limit: { end ≤ 1000000 },
}

impl<'a> PassedMembers<'a> {
    /// None is passed yet.
    pub(crate) fn none(members: &'a Vec<Description>) -> PassedMembers<'a>
        ensures members { result.members.now ≡ members.now }
        ensures count { result.count ≡ 0 }
    {
        PassedMembers {
            members,
            count: 0,
            end: 0,
        }
    }

    /// The same members, of which none is passed if the one of this number is.
    fn before(self, number: usize) -> PassedMembers<'a>
        ensures members { result.members.now ≡ self.entry.members.now }
        ensures count { result.count ≤ number }
    {
        if self.count <= number {
            self
        } else {
            PassedMembers::none(self.members)
        }
    }

    /// Passes those before the one of this number, counted from 0. Takes time for those alone that are not passed yet,
    /// if the one of this number is not.
    pub(crate) fn up_to(self, number: usize) -> PassedMembers<'a>
        requires there { number < length self.members.now.items }
        requires in_limit { end_after 0 (members_view self.members.now.items) ≤ 1000000 }
        ensures members { result.members.now ≡ self.entry.members.now }
        ensures count { result.count ≡ number }
    {
        let from = self.before(number);
        let mut end = from.end;
        for next in from.count..number {
            let member = &from.members[next];
            end = end.next_multiple_of(alignment(member)) + size(member).unwrap_or(0);
        }
        PassedMembers {
            members: from.members,
            count: number,
            end,
        }
    }

    /// The member after those that are passed.
    pub(crate) fn next(self) -> PlacedPart<'a>
        requires { self.count < length self.members.now.items }
        ensures { Some (placed_view result) ≡ member_after 0
            (members_view self.entry.members.now.items) self.entry.count }
    {
        let description = &self.members[self.count];
        PlacedPart {
            offset: self.end.next_multiple_of(alignment(description)),
            description,
        }
    }
}
