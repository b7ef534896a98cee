//! Where in a descriptor a fault stands.

ghost use Rattle.std.specs.Prelude.{◌≡◌};
ghost use Rattle.sv_config.specs.Place as spec;

use crate::rules::TableKind;
use std::fmt;

/// A table of a descriptor.
#[derive(Clone, Copy, Debug, PartialEq, Eq)]
pub enum TablePlace {
    /// The descriptor itself.
    Document,
    /// `cluster`.
    OfNodes,
    /// The context of this number.
    OfContext(usize),
    /// A table of an array of a context, by its place in that array.
    Within {
        context: usize,
        kind: TableKind,
        index: usize,
    },
    /// A table of a context of which it has one at most: `once`, `cookie` or `settings`.
    Single {
        context: usize,
        kind: TableKind,
    },
}

/// What stands at a place.
#[derive(Clone, Copy, Debug, PartialEq, Eq)]
pub enum Found<'a> {
    /// No text and no number, or what stands there does not matter.
    Nothing,
    Words(&'a str),
    Number(i64),
    /// So many members.
    Count(usize),
}

/// Where a fault stands.
#[derive(Clone, Copy, Debug, PartialEq, Eq)]
pub struct FaultPlace<'a> {
    pub table: TablePlace,
    /// The field; empty for the table as a whole.
    pub key: &'a str,
    /// The member of the field's array.
    pub index: Option<usize>,
    pub found: Found<'a>,
}

/// The kind of the table at a place.
pub(crate) fn kind_of(place: TablePlace) -> TableKind
    ensures { result ≡ spec.kind_of place }
{
    match place {
        TablePlace::Document => TableKind::Top,
        TablePlace::OfNodes => TableKind::Cluster,
        TablePlace::OfContext(_) => TableKind::Context,
        TablePlace::Within { kind, .. } | TablePlace::Single { kind, .. } => kind,
    }
}

/// The number of the context that a table is, or is in.
pub(crate) fn number_of(place: TablePlace) -> usize
    ensures { result ≡ spec.number_of place }
{
    match place {
        TablePlace::Document | TablePlace::OfNodes => 0,
        TablePlace::OfContext(context) => context,
        TablePlace::Within { context, .. } | TablePlace::Single { context, .. } => context,
    }
}

/// The place of a table of an array.
pub(crate) fn inner_place(place: TablePlace, kind: TableKind, index: usize) -> TablePlace
    ensures { result ≡ spec.inner_place place kind index }
{
    match kind {
        TableKind::Context => TablePlace::OfContext(index),
        _ => TablePlace::Within {
            context: number_of(place),
            kind,
            index,
        },
    }
}

/// The key of a context at which tables of a kind stand.
fn key_of(kind: TableKind) -> &'static str {
    match kind {
        TableKind::Top | TableKind::Cluster | TableKind::Context => "",
        TableKind::Servlet => "servlet",
        TableKind::Filter => "filter",
        TableKind::Mapping => "filter-mapping",
        TableKind::Listener => "listener",
        TableKind::Page => "error-page",
        TableKind::File => "file",
        TableKind::Once => "once",
        TableKind::Cookie => "cookie",
        TableKind::Settings => "settings",
    }
}

impl fmt::Display for TablePlace {
    fn fmt<W: fmt::Write>(&self, f: &mut fmt::Formatter<W>) -> fmt::Result {
        match self {
            TablePlace::Document => Ok(()),
            TablePlace::OfNodes => f.write_str("cluster"),
            TablePlace::OfContext(context) => write!(f, "context[{context}]"),
            TablePlace::Within {
                context,
                kind,
                index,
            } => write!(f, "context[{context}].{}[{index}]", key_of(*kind)),
            TablePlace::Single { context, kind } => {
                write!(f, "context[{context}].{}", key_of(*kind))
            }
        }
    }
}

impl fmt::Display for Found<'_> {
    fn fmt<W: fmt::Write>(&self, f: &mut fmt::Formatter<W>) -> fmt::Result {
        match self {
            Found::Nothing => Ok(()),
            Found::Words(text) => write!(f, ": {text:?}"),
            Found::Number(number) => write!(f, ": {number}"),
            Found::Count(count) => write!(f, ": {count} of them"),
        }
    }
}

impl fmt::Display for FaultPlace<'_> {
    fn fmt<W: fmt::Write>(&self, f: &mut fmt::Formatter<W>) -> fmt::Result {
        write!(f, "{}", self.table)?;
        if self.table != TablePlace::Document && !self.key.is_empty() {
            f.write_str(".")?;
        }
        f.write_str(self.key)?;
        if let Some(index) = self.index {
            write!(f, "[{index}]")?;
        }
        write!(f, "{}", self.found)
    }
}
