//! Where the tokens of an expansion stand.
ghost use Rattle.std.specs.Prelude.{◌≡◌, ◌≤◌, ◌+◌, List, [], ◌++◌, length, map, slice_get, Some, vec_len, vec_capacity, IfOk, OnOk};
ghost use Rattle.pli_base.specs.Name as base;
ghost use Rattle.pli_include.specs.Expansion.{origin_of};
ghost use Rattle.pli_include.specs.views.OriginsView.{place_in};

use pli_base::{Name, Origin, Token};
use std::alloc::{AllocError, Global};
use std::marker::Model;

/// Where a token stands: the place of its run among the runs, and the number of its line, from 1.
#[derive(Clone, Copy)]
pub struct Place {
    pub run: u32,
    pub line: u32,
}

/// Where tokens stand, in their order: a run of tokens of one member keeps the member's name once, so that each token
/// takes eight bytes. Contracts see the list of the origins.
#[derive(Drop)]
pub struct Origins {
    /// The member of each run.
    members: Vec<Name>,
    places: Vec<Place>,
}

impl Model for Origins {
    ghost use Rattle.std.specs.Prelude.{List, map};
    ghost use Rattle.std.specs.List.{All};
    ghost use Rattle.pli_base.specs.declared.token.Origin as token;
    ghost use Rattle.pli_include.specs.views.OriginsView.{IsOfRun, origin_at};

    ghost Value = { List token.Origin };

    ghost view = { λ o. map (origin_at o.members.items) o.places.items };

    ghost invariant = { λ o. All (IsOfRun o.members.items) o.places.items };
}

/// The run of one more token of a member: the last one, if it is of that member, or else a new one. An error comes
/// where memory runs out, as it does at 2^32 runs.
fn run_of(members: &mut Vec<Name>, member: Name) -> Result<u32, AllocError>
    ensures run { IfOk result (λ run. slice_get members.new.items run ≡ Some member) }
    ensures kept { (more : List base.Name) × (members.new.items ≡ members.old.items ++ more) }
{
    let Ok(count) = u32::try_from(members.len()) else {
        return Err(AllocError);
    };
    if let Some(last) = members.last() {
        if *last == member {
            return Ok(count - 1);
        }
    }
    members.push(member)?;
    Ok(count)
}

/// Appends the places of tokens of a run, for which there is room.
fn note_lines(places: &mut Vec<Place>, run: u32, tokens: &[Token])
    requires { vec_len places.old + length tokens.now ≤ vec_capacity places.old }
    ensures { places.new.items ≡ places.old.items ++ map (place_in run) tokens.now }
{
    for token in tokens {
        places.push_reserved(Place {
            run,
            line: token.line,
        });
    }
}

impl Origins {
    /// No token.
    pub(crate) fn new(alloc: Global) -> Origins
        ensures { result ≡ [] }
    {
        Origins {
            members: Vec::new(alloc),
            places: Vec::new(alloc),
        }
    }

    /// Appends the origins of tokens of a member. An error comes where memory runs out, as it does at 2^32 runs.
    pub(crate) fn extend(&mut self, member: Name, tokens: &[Token]) -> Result<(), AllocError>
        ensures { OnOk result (self.new ≡ self.old ++ map (origin_of member) tokens.now) }
    {
        let run = run_of(&mut self.members, member)?;
        self.places.reserve(tokens.len())?;
        note_lines(&mut self.places, run, tokens);
        Ok(())
    }

    /// Drops the memory that no token takes.
    pub(crate) fn shrink_to_fit(&mut self)
        ensures { self.new ≡ self.old }
    {
        self.members.shrink_to_fit();
        self.places.shrink_to_fit();
    }

    /// The origin of the token at a place, counted from 0, if there is one.
    pub fn get(&self, place: usize) -> Option<Origin>
        ensures { result ≡ slice_get self.now place }
    {
        let place = self.places.get(place)?;
        Some(Origin {
            member: self.members[place.run as usize],
            line: place.line,
        })
    }
}
