//! The items that a block declares.
ghost use Rattle.std.specs.Prelude.{◌≡◌, ◌<◌, ◌+◌, ◌-◌, reverse, take, drop, ◌++◌, ◌&&◌, [], ◌∷◌, true, false, length};
ghost use Rattle.std.specs.Prelude.{get_or, if◌then◌else◌, None, Some, IfSome, IfOk, OnOk, OnErr};
ghost use Rattle.indexmap.specs.IndexMap.{get, IsUnchanged};
ghost use Rattle.pli_base.specs.Name.{Name as Characters};
ghost use Rattle.pli_base.specs.Words.{same_name};
ghost use Rattle.pli_declare_scopes.specs.Scopes.{declares, declares_first, is_named, item_at, chain_over, is_part};
ghost use Rattle.pli_declare_scopes.specs.Scopes.{fits, fits_fully, found_below, found_in};
ghost use Rattle.pli_declare_scopes.specs.Repeats.{judged};
ghost use Rattle.pli_declare_scopes.specs.answers.Judged.{counts_over, declared_as, is_taken};
ghost use Rattle.pli_declare_scopes.specs.declared.found.Found.TheVariants as variants;
ghost use Rattle.pli_declare_scopes.specs.answers.Indexes.{last_below};
ghost use Rattle.pli_declare_scopes.specs.answers.Leaps.{IsLastUpTo};
ghost use Rattle.pli_declare_scopes.specs.answers.Reaches.{IsReach, IsCandidate};
ghost use Rattle.pli_declare_scopes.specs.answers.Remembered.{found_fitting};

use crate::found::Found;
use crate::leap::{Leap, leap_on};
use crate::path::{Step, note_end, path_above, path_of};
use crate::reach::{nearest_above, reach_on, reaches};
use crate::remembered::{forget, keep, recalled};
use crate::repeat::{Verdict, Written, declared_as, judge};
use crate::room::{make_room, make_room_for, push_within};
use indexmap::{IndexMap, IndexSet};
use pli_base::Name;
use std::alloc::{AllocError, AllocFailed, Global};
use std::marker::Model;

/// An item that a block declares: a variable, a member, a label, a procedure.
#[derive(Clone, Copy)]
pub struct Declared {
    pub name: Name,
    /// The number of the item that it is a member of.
    pub owner: Option<usize>,
    /// Whether it counts. No reference means an item that does not, and it keeps its number.
    pub counts: bool,
}

/// The items that a block declares, numbered from 0 in their order. Contracts see the list of them.
#[derive(Drop)]
pub struct BlockItems {
    items: Vec<Declared>,
    /// For each item the one of its name before it.
    earlier: Vec<Option<usize>>,
    /// The last item of each name.
    latest: IndexMap<Name, usize>,
    /// The paths of items.
    steps: IndexSet<Step>,
    /// The path of each item.
    paths: Vec<usize>,
    /// Which items have each path.
    ended: Vec<Found>,
    /// For each item a leap back along those of its name.
    leaps: Vec<Leap>,
    /// The last number within each item, where no more will come.
    lasts: Vec<Option<usize>>,
    /// The outermost item of its name that each item is within.
    tops: Vec<usize>,
    /// Whether all items stand in order: each after what its owner has so far, and one that counts within one that
    /// counts.
    is_ordered: bool,
    /// What the names of references were found to fit, among all these items.
    remembered: IndexMap<Vec<Name>, Found>,
    /// What items the names after the first of a reference were found to qualify, in part or fully.
    tails: IndexMap<Vec<Name>, Found>,
}

impl Model for BlockItems {
    ghost use Rattle.std.specs.Prelude.{List};
    ghost use Rattle.pli_declare_scopes.specs.declared.block.Declared.{Declared as Item};
    ghost use Rattle.pli_declare_scopes.specs.answers.Indexes.{IsIndexed};
    ghost use Rattle.pli_declare_scopes.specs.answers.Paths.{ArePaths};
    ghost use Rattle.pli_declare_scopes.specs.answers.Leaps.{AreLeaps};
    ghost use Rattle.pli_declare_scopes.specs.answers.Reaches.{AreReaching};
    ghost use Rattle.pli_declare_scopes.specs.Scopes.{found_in};
    ghost use Rattle.pli_declare_scopes.specs.answers.Remembered.{AreRemembered, found_fitting};

    ghost Value = { List Item };

    ghost view = { λ b. b.items.items };

    ghost invariant = { λ b. IsIndexed b.items.items b.earlier.items b.latest
        × ArePaths b.items.items b.steps.keys b.paths.items b.ended.items × AreLeaps b.items.items b.leaps.items
        × AreReaching b.items.items b.lasts.items b.tops.items b.is_ordered
        × AreRemembered (found_in b.items.items) b.remembered.entries
        × AreRemembered (found_fitting b.items.items) b.tails.entries };
}

/// Notes an item that counts as the last of its name. Gives the one before it.
fn note(
    latest: &mut IndexMap<Name, usize>,
    item: &Declared,
    number: usize,
) -> Result<Option<usize>, AllocError>
    ensures before { IfOk result (λ before. item.now.counts ≡ true → before ≡ get same_name latest.old item.now.name) }
    ensures none { IfOk result (λ before. item.now.counts ≡ false → before ≡ None) }
    ensures found { OnOk result ((name : Characters) → get same_name latest.new name
        ≡ (if item.now.counts && same_name item.now.name name then Some number else get same_name latest.old name)) }
    ensures err { OnErr result (IsUnchanged latest.old latest.new) }
{
    if !item.counts {
        return Ok(None);
    }
    Ok(latest.insert(item.name, number)?)
}

impl BlockItems {
    /// A block that declares nothing.
    pub fn new(alloc: Global) -> BlockItems
        ensures { result ≡ [] }
    {
        BlockItems {
            items: Vec::new(alloc),
            earlier: Vec::new(alloc),
            latest: IndexMap::new(alloc),
            steps: IndexSet::new(alloc),
            paths: Vec::new(alloc),
            ended: Vec::new(alloc),
            leaps: Vec::new(alloc),
            lasts: Vec::new(alloc),
            tops: Vec::new(alloc),
            is_ordered: true,
            remembered: IndexMap::new(alloc),
            tails: IndexMap::new(alloc),
        }
    }

    /// Asks for room for so many items more.
    fn reserve(&mut self, count: usize) -> Result<(), AllocError>
        ensures { self.new ≡ self.old }
    {
        self.latest.reserve(count)?;
        self.steps.reserve(count)?;
        self.ended.reserve(count)?;
        make_room_for(
            count,
            &mut self.items,
            &mut self.earlier,
            &mut self.paths,
            &mut self.leaps,
            &mut self.lasts,
            &mut self.tops,
        )
    }

    /// A block that declares nothing, with room for so many items.
    pub fn with_room(alloc: Global, count: usize) -> Result<BlockItems, AllocError>
        ensures { IfOk result (λ block. block ≡ []) }
    {
        let mut block = BlockItems::new(alloc);
        if block.reserve(count).is_err() {
            drop(block);
            return Err(AllocError);
        }
        Ok(block)
    }

    /// How many items there are.
    pub fn len(&self) -> usize
        ensures { result ≡ length self.now }
    {
        self.items.len()
    }

    /// One more item, which belongs to one that stands before it, if to any. Gives what becomes of it: of two of one
    /// name at level 1, or in one structure, the later one is a fault, and neither it nor its members count (own).
    /// Without memory for it the block stays as it was, and can be used on.
    pub fn declare(&mut self, written: Written) -> Result<Verdict, AllocError>
        requires { IfSome written.owner (λ o. o < length self.old) }
        ensures judged { IfOk result (λ v. v ≡ judged (counts_over self.old written.owner) (is_taken self.old written)) }
        ensures ok { IfOk result (λ v. self.new ≡ self.old ++ declared_as written v ∷ []) }
        ensures err { OnErr result (self.new ≡ self.old) }
    {
        let number = self.items.len();
        make_room(
            &mut self.items,
            &mut self.earlier,
            &mut self.paths,
            &mut self.leaps,
            &mut self.lasts,
            &mut self.tops,
        )?;
        let step = Step {
            name: written.name,
            above: path_above(&self.paths, written.owner),
        };
        let path = path_of(&mut self.steps, &mut self.ended, step)?;
        let verdict = judge(&self.items, written.owner, self.ended[path]);
        let item = declared_as(written, verdict);
        let before = note(&mut self.latest, &item, number)?;
        push_within(&mut self.earlier, before);
        push_within(&mut self.paths, path);
        note_end(&mut self.ended, path, item.counts, number);
        leap_on(&mut self.leaps, before, number);
        self.is_ordered = reach_on(
            &self.items,
            &mut self.lasts,
            &mut self.tops,
            &item,
            before,
            self.is_ordered,
        );
        push_within(&mut self.items, item);
        forget(&mut self.remembered);
        forget(&mut self.tails);
        Ok(verdict)
    }

    /// Whether an item of this name is declared, at whatever level.
    pub fn declares(&self, name: Name) -> bool
        ensures { result ≡ declares self.now name }
    {
        self.latest.contains_key(&name)
    }

    /// What items a reference qualifies fully.
    fn found_fully(&self, names: &[Name]) -> Found
        ensures { result ≡ found_below (fits_fully self.now names.now) (length self.now) variants.Nothing }
    {
        let mut above = None;
        for name in names {
            let step = Step { name: *name, above };
            let Some(path) = self.steps.get_index_of(&step) else {
                return Found::Nothing;
            };
            above = Some(path);
        }
        match above {
            Some(path) => self.ended[path],
            None => Found::Nothing,
        }
    }

    /// The last item of a name up to a bound.
    fn last_up_to(&self, name: Name, bound: usize) -> Option<usize>
        ensures { IsLastUpTo self.now name bound result }
    {
        let mut next = self.latest.get(&name).copied();
        while let Some(number) = next {
            if number <= bound {
                return next;
            }
            let leap = self.leaps[number].to;
            next = if bound < leap && leap < number {
                Some(leap)
            } else {
                self.earlier[number]
            };
        }
        None
    }

    /// How far back from a number the next item stands that may have the names before the last of a reference above it.
    fn reached(&self, names: &[Name], number: usize) -> Option<usize>
        requires { 0 < length names.now }
        ensures { IsReach self.now names.now number result }
    {
        let mut bound = number;
        if !self.is_ordered {
            return Some(bound);
        }
        for name in &names[..names.len() - 1] {
            let above = self.last_up_to(*name, number)?;
            if let Some(last) = self.lasts[self.tops[above]] {
                bound = bound.min(last);
            }
        }
        Some(bound)
    }

    /// How far back from a number the next item stands that may have two names of a reference above it, the second
    /// within the first.
    fn reached_between(&self, names: &[Name], at: usize, number: usize) -> usize
        requires { at + 2 < length names.now }
        ensures { IsReach self.now names.now number (Some result) }
    {
        if !self.is_ordered {
            return number;
        }
        let Some(outer) = self.last_up_to(names[at], number) else {
            return number;
        };
        let Some(inner) = self.last_up_to(names[at + 1], number) else {
            return number;
        };
        let top = self.tops[outer];
        if inner <= top && reaches(self.lasts[top], number) {
            top
        } else {
            number
        }
    }

    /// How far back from a number the next item stands that may have each two names of a reference above it, the second
    /// within the first.
    fn reached_apart(&self, names: &[Name], number: usize) -> usize
        ensures { IsReach self.now names.now number (Some result) }
    {
        let mut bound = number;
        for at in 0..names.len().saturating_sub(2) {
            bound = bound.min(self.reached_between(names, at, number));
        }
        bound
    }

    /// The last item up to a number that a reference may fit.
    fn candidate(&self, names: &[Name], number: usize) -> Option<usize>
        ensures { IsCandidate self.now names.now number result }
    {
        let _ = &self.items;
        let last = names.last()?;
        let reached = self.reached(names, number)?;
        let bound = reached.min(self.reached_apart(names, number));
        self.last_up_to(*last, bound.min(number))
    }

    /// Whether names fit the item of this number, where the last of them is its own name. No more levels are looked at
    /// than it takes. Where items stand in order, a leap is tried for each name, and for the first of them no level is
    /// looked at.
    fn fits(&self, names: &[Name], number: usize) -> bool
        requires within { number < length self.now }
        requires counts { (item_at self.now number).counts ≡ true }
        requires some { 0 < length names.now }
        ensures { result ≡ is_part (reverse (take (length names.now - 1) names.now))
            (chain_over self.now (item_at self.now number).owner) }
    {
        let mut left = names.len() - 1;
        let mut above = self.items[number].owner;
        let mut tried = names.len();
        while left > 0 {
            let Some(place) = above else {
                return false;
            };
            if self.is_ordered && left < tried {
                let last = self.last_up_to(names[left - 1], place);
                above = nearest_above(&self.lasts, &self.tops, last, place);
                if left == 1 {
                    return above.is_some();
                }
                tried = left;
            } else {
                if names[left - 1] == self.items[place].name {
                    left -= 1;
                }
                above = self.items[place].owner;
            }
        }
        true
    }

    /// What items a reference qualifies, in part or fully. Two of them are enough.
    fn found_partly(&self, names: &[Name]) -> Found
        ensures { result ≡ found_below (fits self.now names.now) (length self.now) variants.Nothing }
    {
        let Some(last) = names.last() else {
            return Found::Nothing;
        };
        let mut found = Found::Nothing;
        let mut next = self.latest.get(last).copied();
        while let Some(number) = next {
            next = self.candidate(names, number);
            if next == Some(number) {
                if self.fits(names, number) {
                    found = found.with_number(number);
                }
                if let Found::Several = found {
                    return Found::Several;
                }
                next = self.earlier[number];
            }
        }
        found
    }

    /// What items fit the names of a reference, searched for: one that they qualify fully is preferred.
    fn searched(&self, names: &[Name]) -> Found
        ensures { result ≡ found_in self.now names.now }
    {
        match self.found_fully(names) {
            Found::Nothing => self.found_partly(names),
            fully => fully,
        }
    }

    /// What items fit the names of a reference: one that they qualify fully is preferred. They are searched for unless
    /// they are remembered.
    pub fn find(&self, names: &[Name]) -> Found
        ensures { result ≡ found_in self.now names.now }
    {
        match recalled(&self.remembered, names) {
            Some(found) => found,
            None => self.searched(names),
        }
    }

    /// The last item of a name, at whatever level.
    fn last_of(&self, name: Name) -> Option<usize>
        ensures { result ≡ last_below (is_named self.now name) (length self.now) }
    {
        self.latest.get(&name).copied()
    }

    /// What items a name qualifies fully, where this is one of them: those of the same path.
    fn found_at_top(&self, names: &[Name], number: usize) -> Found
        requires one { length names.now ≡ 1 }
        requires within { number < length self.now }
        requires named { is_named self.now (get_or names.now 0 []) number ≡ true }
        requires top { (item_at self.now number).owner ≡ None }
        ensures { result ≡ found_below (fits_fully self.now names.now) (length self.now) variants.Nothing }
    {
        let path = self.paths[number];
        self.ended[path]
    }

    /// What items fit a name, where this is one of those that it qualifies fully.
    fn found_alike(&self, names: &[Name], number: usize) -> Found
        requires one { length names.now ≡ 1 }
        requires within { number < length self.now }
        requires named { is_named self.now (get_or names.now 0 []) number ≡ true }
        requires top { (item_at self.now number).owner ≡ None }
        ensures { result ≡ found_in self.now names.now }
    {
        match self.found_at_top(names, number) {
            Found::Nothing => self.found_partly(names),
            fully => fully,
        }
    }

    /// What items fit the names of a reference, where this is an item of the first of them. No search is needed for one
    /// name that it qualifies fully.
    fn found_with(&self, names: &[Name], number: usize) -> Found
        requires some { 0 < length names.now }
        requires within { number < length self.now }
        requires named { is_named self.now (get_or names.now 0 []) number ≡ true }
        ensures { result ≡ found_in self.now names.now }
    {
        if names.len() > 1 {
            return self.find(names);
        }
        match self.items[number].owner {
            Some(_) => self.find(names),
            None => self.found_alike(names, number),
        }
    }

    /// What items fit the names of a reference, if an item of the first of them is declared.
    pub fn find_declared(&self, names: &[Name]) -> Option<Found>
        ensures { result ≡ (if declares_first self.now names.now then Some (found_in self.now names.now) else None) }
    {
        let Some(first) = names.first() else {
            return None;
        };
        let Some(number) = self.last_of(*first) else {
            return None;
        };
        Some(self.found_with(names, number))
    }

    /// What items the names after the first of a reference qualify, in part or fully. They are searched for once.
    fn found_of_tail(&mut self, alloc: Global, tail: &[Name]) -> Result<Found, AllocError>
        ensures kept { self.new ≡ self.old }
        ensures found { IfOk result (λ found. found ≡ found_fitting self.old tail.now) }
    {
        if let Some(found) = recalled(&self.tails, tail) {
            return Ok(found);
        }
        let found = self.found_partly(tail);
        let names = Vec::from_slice(alloc, tail)?;
        keep(&mut self.tails, names, found)?;
        Ok(found)
    }

    /// The item that alone fits the names after the first of a reference, if it fits all of them.
    fn found_alone(&self, names: &[Name], number: usize) -> Found
        requires some { 1 < length names.now }
        requires within { number < length self.now }
        requires fitting { fits self.now (drop 1 names.now) number ≡ true }
        ensures { result ≡ (if fits self.now names.now number then variants.One number else variants.Nothing) }
    {
        let _ = &self.items;
        if self.fits(names, number) {
            Found::One(number)
        } else {
            Found::Nothing
        }
    }

    /// What items a reference of three names or more qualifies, in part or fully. It qualifies none that the names
    /// after the first don't.
    fn found_by_tail(&mut self, alloc: Global, names: &[Name]) -> Result<Found, AllocError>
        ensures kept { self.new ≡ self.old }
        ensures found { IfOk result (λ found. found ≡ found_fitting self.old names.now) }
    {
        let Some((_first, tail)) = names.split_first() else {
            return Ok(self.found_partly(names));
        };
        if tail.len() < 2 {
            return Ok(self.found_partly(names));
        }
        match self.found_of_tail(alloc, tail)? {
            Found::Nothing => Ok(Found::Nothing),
            Found::One(number) => Ok(self.found_alone(names, number)),
            Found::Several => Ok(self.found_partly(names)),
        }
    }

    /// What items fit the names of a reference, searched for by the names after its first: one that they qualify fully
    /// is preferred.
    fn searched_by_tail(&mut self, alloc: Global, names: &[Name]) -> Result<Found, AllocError>
        ensures kept { self.new ≡ self.old }
        ensures found { IfOk result (λ found. found ≡ found_in self.old names.now) }
    {
        let fully = self.found_fully(names);
        if let Found::Nothing = fully {
            return self.found_by_tail(alloc, names);
        }
        Ok(fully)
    }

    /// Searches for the names of a reference and remembers what they fit, until one more item is declared. Without
    /// memory for it the block can be used on.
    pub fn remember(&mut self, alloc: Global, names: &[Name]) -> Result<(), AllocError>
        ensures { self.new ≡ self.old }
    {
        if recalled(&self.remembered, names).is_some() {
            return Ok(());
        }
        let found = self.searched_by_tail(alloc, names)?;
        let names = Vec::from_slice(alloc, names)?;
        keep(&mut self.remembered, names, found)
    }
}
