//! Fields by their names, and methods.

use http::Method;
use http_header::{HeaderName, HeaderValue};
use std::alloc::Global;
use std::process::Abort;
use sv_model::{Field, Sequence, is_head, place_of_field, set_field};

/// Fields as their names and values.
pub type Pairs = &'static [(&'static str, &'static str)];

fn name_of(rt: &impl Abort, alloc: Global, name: &str) -> HeaderName {
    HeaderName::from_bytes(alloc, name.as_bytes()).expect(rt, "the name of a field")
}

/// A field of a name and a value.
fn field(rt: &impl Abort, alloc: Global, name: &str, value: &str) -> Field {
    Field {
        name: name_of(rt, alloc, name),
        value: HeaderValue::from_str(alloc, value).expect(rt, "the value of a field"),
    }
}

/// The fields of these names and values, in order.
pub fn fields_of(rt: &impl Abort, alloc: Global, pairs: &[(&str, &str)]) -> Sequence<Field> {
    let mut fields = Sequence::new(alloc);
    for (name, value) in pairs {
        let field = field(rt, alloc, name, value);
        fields.push(field).expect(rt, "memory");
    }
    fields
}

/// The field has this name and this value.
pub fn is_field(field: &Field, name: &str, value: &str) -> bool {
    field.name.as_str() == name && field.value.as_bytes() == value.as_bytes()
}

/// The fields are those of these names and values, in order.
pub fn are_fields(fields: &[Field], pairs: &[(&str, &str)]) -> bool {
    let mut are_so = fields.len() == pairs.len();
    for (field, (name, value)) in fields.iter().zip(pairs) {
        are_so = are_so && is_field(field, name, value);
    }
    are_so
}

/// A name and a value that are set, and the fields before and after that.
struct Setting {
    row: &'static str,
    before: Pairs,
    name: &'static str,
    value: &'static str,
    behind: Pairs,
}

static SET: [Setting; 3] = [
    Setting {
        row: "the first of two, in another case",
        before: &[("x-a", "1"), ("x-b", "2"), ("x-b", "3")],
        name: "X-B",
        value: "4",
        behind: &[("x-a", "1"), ("x-b", "4"), ("x-b", "3")],
    },
    Setting {
        row: "a name that isn't there",
        before: &[("x-a", "1"), ("x-b", "4"), ("x-b", "3")],
        name: "x-c",
        value: "5",
        behind: &[("x-a", "1"), ("x-b", "4"), ("x-b", "3"), ("x-c", "5")],
    },
    Setting {
        row: "an empty value",
        before: &[("x-a", "1"), ("x-b", "4"), ("x-b", "3"), ("x-c", "5")],
        name: "x-a",
        value: "",
        behind: &[("x-a", ""), ("x-b", "4"), ("x-b", "3"), ("x-c", "5")],
    },
];

fn is_set(rt: &impl Abort, alloc: Global, row: &Setting) -> bool {
    let mut fields = fields_of(rt, alloc, row.before);
    let field = field(rt, alloc, row.name, row.value);
    set_field(&mut fields, field).expect(rt, "memory");
    are_fields(fields.as_slice(), row.behind)
}

pub(super) fn other_set(rt: &impl Abort, alloc: Global) -> Option<&'static str> {
    for row in &SET {
        if !is_set(rt, alloc, row) {
            return Some(row.row);
        }
    }
    None
}

/// The place of a name among fields.
fn place_of(rt: &impl Abort, alloc: Global, fields: &[Field], name: &str) -> Option<usize> {
    place_of_field(fields, &name_of(rt, alloc, name))
}

static PLACES: [(&str, Option<usize>); 4] = [
    ("x-a", Some(0)),
    ("x-b", Some(1)),
    ("x-c", Some(3)),
    ("x", None),
];

fn other_place_among(rt: &impl Abort, alloc: Global, fields: &[Field]) -> Option<&'static str> {
    for (name, want) in &PLACES {
        if place_of(rt, alloc, fields, name) != *want {
            return Some(name);
        }
    }
    None
}

pub(super) fn other_place(rt: &impl Abort, alloc: Global) -> Option<&'static str> {
    let all = fields_of(rt, alloc, SET[2].behind);
    other_place_among(rt, alloc, all.as_slice())
}

static METHODS: [(&str, bool); 5] = [
    ("HEAD", true),
    ("head", false),
    ("GET", false),
    ("HEADS", false),
    ("HEA", false),
];

fn is_head_method(rt: &impl Abort, alloc: Global, name: &str) -> bool {
    is_head(&Method::from_bytes(alloc, name.as_bytes()).expect(rt, "a method"))
}

pub(super) fn other_method(rt: &impl Abort, alloc: Global) -> Option<&'static str> {
    for (name, want) in &METHODS {
        if is_head_method(rt, alloc, name) != *want {
            return Some(name);
        }
    }
    None
}
