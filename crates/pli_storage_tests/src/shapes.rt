//! Descriptions of storage by their names, and where their parts stand.

use pli_map::{Bounds, Description, alignment, is_scalar, size};
use std::alloc::Global;
use std::process::Abort;

/// The descriptions, each made of those before it. `n15` is FIXED BINARY(15), `c4` CHARACTER(4), `v3` CHARACTER(3)
/// VARYING, `b9` BIT(9), `p` POINTER, `o` OFFSET, and `a16` AREA(16). `pair = c1 n15` is a structure, `pairs = 1:3 of
/// pair` an array. `n15`, `n14` and `one` take as many bytes, and so do `n31`, `two`, `few`, `late` and `o`.
static SHAPES: &str = "\
a16; a32; a60; n15; n14; n31; one = n15; two = n15 n15; few = 1:2 of n15; late = 0:1 of n15; c9; p; o; c1
n1; n16; n32; n63; c3; c4; v1; v3; v9; b1; b8; b9; b12
lone = n31; pair = c1 n15; gap = c1 n63; nest = pair n15 pair; record = v3 b9 n63 c1; address = n31 p
links = o p n15; yard = c1 a16 n15
empty = 1:0 of n15; row = -1:1 of n31; letters = 1:5 of c1; words = 0:3 of v3; flags = 1:4 of b12
grid = 0:1 2:4 of n15; rows = 5:6 of row; lones = 1:2 of lone; pairs = 1:3 of pair; records = 1:2 of record
strip = 1:200 of n31; c512; c32767; hall = 1:30 of c32767";

/// How many of them, from the first on, are those of areas, and of areas with what stands in them.
pub(crate) const AREAS: usize = 3;

pub(crate) const IN_AREAS: usize = 14;

/// A part of a description: how many bytes after the beginning it stands, how many scalars before it, and its own
/// description's number.
#[derive(Clone, Copy)]
pub(crate) struct Part {
    pub(crate) offset: u64,
    pub(crate) first: usize,
    pub(crate) shape: usize,
    pub(crate) is_scalar: bool,
}

/// A description and its parts, itself the first of them.
#[derive(Drop)]
pub(crate) struct Shape {
    name: &'static str,
    pub(crate) description: Description,
    /// In bytes.
    pub(crate) size: u64,
    pub(crate) parts: Vec<Part>,
    /// How many scalars it has.
    pub(crate) count: usize,
}

impl Shape {
    /// The part that stands at an offset and has the description of a number, if there is one.
    pub(crate) fn part(&self, offset: u64, shape: usize) -> Option<Part> {
        for part in self.parts.iter() {
            if part.offset == offset && part.shape == shape {
                return Some(*part);
            }
        }
        None
    }

    /// What stands so many bytes after the beginning is a part, and its parts are.
    fn add(&mut self, rt: &impl Abort, inner: &Shape, offset: u64) {
        for part in inner.parts.iter() {
            let moved = Part {
                offset: part.offset.saturating_add(offset),
                first: part.first.saturating_add(self.count),
                ..*part
            };
            self.parts.push(moved).expect(rt, "memory");
        }
        self.count = inner.count.saturating_add(self.count);
    }
}

/// The number of a description by its name.
pub(crate) fn shape_number(rt: &impl Abort, shapes: &[Shape], name: &str) -> usize {
    for number in 0..shapes.len() {
        if shapes[number].name == name {
            return number;
        }
    }
    panic!(rt; "no description")
}

/// A description by its name.
fn shape_of<'a>(rt: &impl Abort, shapes: &'a [Shape], name: &str) -> &'a Shape {
    let number = shape_number(rt, shapes, name);
    shapes.get(number).expect(rt, "a description")
}

/// The description of a scalar or an area, by the letter of its name and the number after it.
fn elementary(rt: &impl Abort, name: &str) -> Description {
    if name == "p" {
        return Description::Pointer;
    }
    if name == "o" {
        return Description::Offset;
    }
    let (letter, digits) = name.split_at_checked(1).expect(rt, "a letter");
    let length: u16 = digits.parse().expect(rt, "a length");
    match letter {
        "n" => Description::FixedBinary(u8::try_from(length).expect(rt, "a precision")),
        "c" => Description::Character(length),
        "v" => Description::Varying(length),
        "a" => Description::Area(u32::from(length)),
        _ => Description::Bit(length),
    }
}

/// The first byte from one on at which a description may stand.
fn aligned(at: u64, description: &Description) -> u64 {
    let alignment = u64::from(alignment(description));
    at.div_ceil(alignment).saturating_mul(alignment)
}

/// The description of a structure; its members are added as parts.
fn structure(
    rt: &impl Abort,
    alloc: Global,
    shapes: &[Shape],
    names: &str,
    whole: &mut Shape,
) -> Description {
    let mut members = Vec::new(alloc);
    let mut end: u64 = 0;
    for name in names.split(' ') {
        let member = shape_of(rt, shapes, name);
        let offset = aligned(end, &member.description);
        whole.add(rt, member, offset);
        end = offset.saturating_add(member.size);
        let copy = member.description.copy(alloc).expect(rt, "memory");
        members.push(copy).expect(rt, "memory");
    }
    Description::Structure(members)
}

/// The bounds that words such as `1:3` are.
fn bounds_of(rt: &impl Abort, alloc: Global, words: &str) -> Vec<Bounds> {
    let mut bounds = Vec::new(alloc);
    for word in words.split(' ') {
        let (low, high) = word.split_once(':').expect(rt, "bounds");
        let low = low.parse().expect(rt, "a low bound");
        let high = high.parse().expect(rt, "a high bound");
        bounds.push(Bounds { low, high }).expect(rt, "memory");
    }
    bounds
}

/// The description of an array; its elements are added as parts.
fn array(
    rt: &impl Abort,
    alloc: Global,
    element: &Shape,
    bounds: Vec<Bounds>,
    whole: &mut Shape,
) -> Description {
    let mut count = 1;
    for dimension in bounds.iter() {
        count = u64::from(dimension.extent()).saturating_mul(count);
    }
    let mut offset = 0;
    for _ in 0..count {
        whole.add(rt, element, offset);
        offset = aligned(offset.saturating_add(element.size), &element.description);
    }
    let copy = element.description.copy(alloc).expect(rt, "memory");
    Description::Array {
        bounds,
        element: Box::new(alloc, copy).expect(rt, "memory"),
    }
}

/// The description that an entry of the list has; what stands in it is added as parts.
fn description_of(
    rt: &impl Abort,
    alloc: Global,
    shapes: &[Shape],
    parts: &str,
    whole: &mut Shape,
) -> Description {
    if parts.is_empty() {
        let description = elementary(rt, whole.name);
        let is_scalar = is_scalar(&description);
        whole.parts.get_mut(0).expect(rt, "itself").is_scalar = is_scalar;
        whole.count = usize::from(is_scalar);
        return description;
    }
    match parts.split_once(" of ") {
        Some((dimensions, element)) => {
            let bounds = bounds_of(rt, alloc, dimensions);
            array(rt, alloc, shape_of(rt, shapes, element), bounds, whole)
        }
        None => structure(rt, alloc, shapes, parts, whole),
    }
}

/// The description that an entry of the list names or makes of those before it.
fn shape_of_entry(rt: &impl Abort, alloc: Global, shapes: &[Shape], entry: &'static str) -> Shape {
    let (name, parts) = entry.split_once(" = ").unwrap_or((entry, ""));
    let itself = Part {
        offset: 0,
        first: 0,
        shape: shapes.len(),
        is_scalar: false,
    };
    let mut shape = Shape {
        name,
        description: Description::Pointer,
        size: 0,
        parts: vec![in alloc; itself].expect(rt, "memory"),
        count: 0,
    };
    shape.description = description_of(rt, alloc, shapes, parts, &mut shape);
    shape.size = u64::from(size(&shape.description).expect(rt, "a size"));
    shape
}

/// All the descriptions.
pub(crate) fn all_shapes(rt: &impl Abort, alloc: Global) -> Vec<Shape> {
    let mut shapes = Vec::new(alloc);
    for line in SHAPES.lines() {
        for entry in line.split("; ") {
            let shape = shape_of_entry(rt, alloc, &shapes, entry);
            shapes.push(shape).expect(rt, "memory");
        }
    }
    shapes
}

/// Equal descriptions that stand elsewhere.
pub(crate) fn twins_of(rt: &impl Abort, alloc: Global, shapes: &[Shape]) -> Vec<Description> {
    let mut twins = Vec::new(alloc);
    for shape in shapes {
        let twin = shape.description.copy(alloc).expect(rt, "memory");
        twins.push(twin).expect(rt, "memory");
    }
    twins
}
