//! Attributes by their names.

ghost use Rattle.std.specs.Prelude.{◌≡◌, ◌≤◌, length};

use std::alloc::Global;
use std::process::Abort;
use sv_model::{Attributes, Sequence, Text};

/// Attributes as their names and values.
type Pairs = &'static [(&'static str, &'static [u8])];

/// A name, which is a short one.
fn name_of(rt: &impl Abort, alloc: Global, name: &str) -> Text
    ensures { length result ≤ 1000 }
{
    assert!(rt; name.len() <= 1_000);
    Text::from_str(alloc, name).expect(rt, "memory")
}

/// A value, which is a short one.
fn value_of(rt: &impl Abort, alloc: Global, value: &[u8]) -> Sequence<u8>
    ensures { length result ≤ 1000 }
{
    assert!(rt; value.len() <= 1_000);
    Sequence::from_vec(Vec::from_slice(alloc, value).expect(rt, "memory"))
}

/// Puts a value at a name, and gives the old one.
fn put(
    rt: &impl Abort,
    alloc: Global,
    attributes: &mut Attributes,
    name: &str,
    value: &[u8],
) -> Option<Sequence<u8>> {
    assert!(rt; attributes.size() <= 1_000);
    let name = name_of(rt, alloc, name);
    let value = value_of(rt, alloc, value);
    attributes.insert(name, value).expect(rt, "memory")
}

/// The attributes are those of these names and values, in order.
fn are_attributes(attributes: &Attributes, pairs: &[(&str, &[u8])]) -> bool {
    let mut are_so = attributes.len() == pairs.len();
    for (found, wanted) in attributes.iter().zip(pairs) {
        are_so = are_so && found == *wanted;
    }
    are_so
}

/// The value is this one, or there is none.
fn is_value(value: &Option<Sequence<u8>>, want: Option<&[u8]>) -> bool {
    match value {
        Some(value) => want == Some(value.as_slice()),
        None => want.is_none(),
    }
}

/// A value that is put at a name, the old value, and all attributes after that, with the bytes of all.
struct Step {
    row: &'static str,
    name: &'static str,
    value: &'static [u8],
    old: Option<&'static [u8]>,
    all: Pairs,
    size: usize,
}

/// Names are in order of their bytes: capitals before small letters, and `é` (0xC3 0xA9) after `z` (0x7A).
/// The bytes of all are added up by hand.
static PUT: [Step; 6] = [
    Step {
        row: "the first",
        name: "z",
        value: b"1",
        old: None,
        all: &[("z", b"1")],
        size: 2,
    },
    Step {
        row: "one before it",
        name: "a",
        value: b"22",
        old: None,
        all: &[("a", b"22"), ("z", b"1")],
        size: 5,
    },
    Step {
        row: "one behind both",
        name: "é",
        value: b"",
        old: None,
        all: &[("a", b"22"), ("z", b"1"), ("é", b"")],
        size: 7,
    },
    Step {
        row: "a capital, before small letters",
        name: "B",
        value: b"3",
        old: None,
        all: &[("B", b"3"), ("a", b"22"), ("z", b"1"), ("é", b"")],
        size: 9,
    },
    Step {
        row: "a value in the place of another",
        name: "a",
        value: b"",
        old: Some(b"22"),
        all: &[("B", b"3"), ("a", b""), ("z", b"1"), ("é", b"")],
        size: 7,
    },
    Step {
        row: "a longer value",
        name: "z",
        value: b"long",
        old: Some(b"1"),
        all: &[("B", b"3"), ("a", b""), ("z", b"long"), ("é", b"")],
        size: 10,
    },
];

/// The attributes are as they are after a row, with its value at its name.
fn are_behind(attributes: &Attributes, row: &Step) -> bool {
    are_attributes(attributes, row.all)
        && attributes.size() == row.size
        && attributes.get(row.name) == Some(row.value)
}

/// Puts the value of a row, and compares.
fn is_put(rt: &impl Abort, alloc: Global, attributes: &mut Attributes, row: &Step) -> bool {
    let old = put(rt, alloc, attributes, row.name, row.value);
    is_value(&old, row.old) && are_behind(attributes, row)
}

/// The first row after which the attributes are otherwise.
fn other_put_among(
    rt: &impl Abort,
    alloc: Global,
    attributes: &mut Attributes,
) -> Option<&'static str> {
    if attributes.len() != 0 || attributes.size() != 0 {
        return Some("none at first");
    }
    for row in &PUT {
        if !is_put(rt, alloc, attributes, row) {
            return Some(row.row);
        }
    }
    None
}

pub(super) fn other_put(rt: &impl Abort, alloc: Global) -> Option<&'static str> {
    other_put_among(rt, alloc, &mut Attributes::new(alloc))
}

/// What all rows leave behind.
fn all(rt: &impl Abort, alloc: Global) -> Attributes {
    let mut attributes = Attributes::new(alloc);
    for row in &PUT {
        let _old = put(rt, alloc, &mut attributes, row.name, row.value);
    }
    attributes
}

/// The names are these, in order.
fn are_names(names: &[Text], want: &[&str]) -> bool {
    let mut are_so = names.len() == want.len();
    for (name, its) in names.iter().zip(want) {
        are_so = are_so && name.as_str() == *its;
    }
    are_so
}

fn have_names(rt: &impl Abort, alloc: Global, attributes: &Attributes, want: &[&str]) -> bool {
    let names = attributes.names(alloc).expect(rt, "memory");
    are_names(names.as_slice(), want)
}

fn other_names_of(rt: &impl Abort, alloc: Global, attributes: &Attributes) -> Option<&'static str> {
    if attributes.len() != 4 || attributes.get("A").is_some() {
        return Some("a name in another case");
    }
    if !have_names(rt, alloc, attributes, &["B", "a", "z", "é"]) {
        return Some("all names");
    }
    None
}

pub(super) fn other_names(rt: &impl Abort, alloc: Global) -> Option<&'static str> {
    other_names_of(rt, alloc, &all(rt, alloc))
}

/// A name whose value is removed, the old value, and all attributes after that, with the bytes of all.
struct Removal {
    row: &'static str,
    name: &'static str,
    old: Option<&'static [u8]>,
    all: Pairs,
    size: usize,
}

static REMOVED: [Removal; 3] = [
    Removal {
        row: "z",
        name: "z",
        old: Some(b"long"),
        all: &[("B", b"3"), ("a", b""), ("é", b"")],
        size: 5,
    },
    Removal {
        row: "z once more",
        name: "z",
        old: None,
        all: &[("B", b"3"), ("a", b""), ("é", b"")],
        size: 5,
    },
    Removal {
        row: "B",
        name: "B",
        old: Some(b"3"),
        all: &[("a", b""), ("é", b"")],
        size: 3,
    },
];

/// Removes the value of a row, and compares.
fn is_removed(attributes: &mut Attributes, row: &Removal) -> bool {
    is_value(&attributes.remove(row.name), row.old)
        && are_attributes(attributes, row.all)
        && attributes.size() == row.size
}

fn other_removed_of(attributes: &mut Attributes) -> Option<&'static str> {
    for row in &REMOVED {
        if !is_removed(attributes, row) {
            return Some(row.row);
        }
    }
    None
}

pub(super) fn other_removed(rt: &impl Abort, alloc: Global) -> Option<&'static str> {
    other_removed_of(&mut all(rt, alloc))
}

/// Two attributes.
fn two(rt: &impl Abort, alloc: Global) -> Attributes {
    let mut attributes = Attributes::new(alloc);
    let _new = put(rt, alloc, &mut attributes, "k", b"one");
    let _new = put(rt, alloc, &mut attributes, "j", b"two");
    attributes
}

/// A copy of the two, of which one has another value since.
fn copied_before(rt: &impl Abort, alloc: Global) -> Attributes {
    let mut attributes = two(rt, alloc);
    let copy = attributes.copy(alloc).expect(rt, "memory");
    let _old = put(rt, alloc, &mut attributes, "k", b"other");
    copy
}

fn other_than_two(copy: &Attributes) -> Option<&'static str> {
    if !are_attributes(copy, &[("j", b"two"), ("k", b"one")]) {
        return Some("its values");
    }
    if copy.size() != 8 {
        return Some("its size");
    }
    None
}

pub(super) fn other_copy(rt: &impl Abort, alloc: Global) -> Option<&'static str> {
    other_than_two(&copied_before(rt, alloc))
}

/// Attributes of which this is the only one.
fn single(rt: &impl Abort, alloc: Global, name: &str, value: &[u8]) -> Attributes {
    let name = name_of(rt, alloc, name);
    let value = value_of(rt, alloc, value);
    let mut attributes = Attributes::new(alloc);
    attributes.push(name, value).expect(rt, "memory");
    attributes
}

pub(super) fn other_pushed(rt: &impl Abort, alloc: Global) -> Option<&'static str> {
    if !are_attributes(&single(rt, alloc, "k", b"one"), &[("k", b"one")]) {
        return Some("k");
    }
    None
}
