//! The tables of a descriptor, and the fields that each kind of table may have.

ghost use Rattle.std.specs.Prelude.{◌≡◌, map};
ghost use Rattle.sv_config.specs.Rules.{rule_of, rules_of, has_free_keys as spec_has_free_keys};

/// A kind of table.
#[derive(Clone, Copy, Debug, PartialEq, Eq)]
pub enum TableKind {
    Top,
    Cluster,
    Context,
    Servlet,
    Filter,
    Mapping,
    Listener,
    Page,
    File,
    Once,
    Cookie,
    Settings,
}

/// What a field holds; the plural is an array.
#[derive(Clone, Copy, Debug, PartialEq, Eq)]
pub enum FieldKind {
    Text,
    Integer,
    Boolean,
    Texts,
    Integers,
    Table,
    Tables,
}

/// A field that a table may have.
#[derive(Clone, Copy)]
pub struct FieldRule {
    pub key: &'static str,
    pub kind: FieldKind,
    pub required: bool,
}

const TOP: [FieldRule; 2] = [
    FieldRule {
        key: "context",
        kind: FieldKind::Tables,
        required: true,
    },
    FieldRule {
        key: "cluster",
        kind: FieldKind::Table,
        required: false,
    },
];

const CLUSTER: [FieldRule; 5] = [
    FieldRule {
        key: "ports",
        kind: FieldKind::Integers,
        required: false,
    },
    FieldRule {
        key: "deadline",
        kind: FieldKind::Integer,
        required: false,
    },
    FieldRule {
        key: "secrets",
        kind: FieldKind::Text,
        required: false,
    },
    FieldRule {
        key: "keys",
        kind: FieldKind::Integer,
        required: false,
    },
    FieldRule {
        key: "forget",
        kind: FieldKind::Boolean,
        required: false,
    },
];

const CONTEXT: [FieldRule; 11] = [
    FieldRule {
        key: "path",
        kind: FieldKind::Text,
        required: true,
    },
    FieldRule {
        key: "interval",
        kind: FieldKind::Integer,
        required: false,
    },
    FieldRule {
        key: "servlet",
        kind: FieldKind::Tables,
        required: false,
    },
    FieldRule {
        key: "filter",
        kind: FieldKind::Tables,
        required: false,
    },
    FieldRule {
        key: "filter-mapping",
        kind: FieldKind::Tables,
        required: false,
    },
    FieldRule {
        key: "listener",
        kind: FieldKind::Tables,
        required: false,
    },
    FieldRule {
        key: "error-page",
        kind: FieldKind::Tables,
        required: false,
    },
    FieldRule {
        key: "file",
        kind: FieldKind::Tables,
        required: false,
    },
    FieldRule {
        key: "once",
        kind: FieldKind::Table,
        required: false,
    },
    FieldRule {
        key: "cookie",
        kind: FieldKind::Table,
        required: false,
    },
    FieldRule {
        key: "settings",
        kind: FieldKind::Table,
        required: false,
    },
];

const SERVLET: [FieldRule; 2] = [
    FieldRule {
        key: "name",
        kind: FieldKind::Text,
        required: true,
    },
    FieldRule {
        key: "patterns",
        kind: FieldKind::Texts,
        required: true,
    },
];

const NAMED: [FieldRule; 1] = [FieldRule {
    key: "name",
    kind: FieldKind::Text,
    required: true,
}];

const MAPPING: [FieldRule; 4] = [
    FieldRule {
        key: "filter",
        kind: FieldKind::Text,
        required: true,
    },
    FieldRule {
        key: "pattern",
        kind: FieldKind::Text,
        required: false,
    },
    FieldRule {
        key: "servlet",
        kind: FieldKind::Text,
        required: false,
    },
    FieldRule {
        key: "dispatch",
        kind: FieldKind::Texts,
        required: false,
    },
];

const PAGE: [FieldRule; 3] = [
    FieldRule {
        key: "path",
        kind: FieldKind::Text,
        required: true,
    },
    FieldRule {
        key: "status",
        kind: FieldKind::Integer,
        required: false,
    },
    FieldRule {
        key: "fault",
        kind: FieldKind::Text,
        required: false,
    },
];

const FILE: [FieldRule; 4] = [
    FieldRule {
        key: "path",
        kind: FieldKind::Text,
        required: true,
    },
    FieldRule {
        key: "file",
        kind: FieldKind::Text,
        required: false,
    },
    FieldRule {
        key: "folder",
        kind: FieldKind::Text,
        required: false,
    },
    FieldRule {
        key: "cache",
        kind: FieldKind::Text,
        required: false,
    },
];

const ONCE: [FieldRule; 2] = [
    FieldRule {
        key: "answers",
        kind: FieldKind::Integer,
        required: true,
    },
    FieldRule {
        key: "parameter",
        kind: FieldKind::Text,
        required: false,
    },
];

const COOKIE: [FieldRule; 3] = [
    FieldRule {
        key: "name",
        kind: FieldKind::Text,
        required: false,
    },
    FieldRule {
        key: "secure",
        kind: FieldKind::Boolean,
        required: false,
    },
    FieldRule {
        key: "same-site",
        kind: FieldKind::Text,
        required: false,
    },
];

/// The fields that a kind of table may have.
#[tactic(auto, unfolding(crate::specs::Rules::rules_of))]
pub(crate) fn rules(kind: TableKind) -> &'static [FieldRule]
    ensures { map rule_of result.now ≡ rules_of kind }
{
    match kind {
        TableKind::Top => &TOP,
        TableKind::Cluster => &CLUSTER,
        TableKind::Context => &CONTEXT,
        TableKind::Servlet => &SERVLET,
        TableKind::Filter | TableKind::Listener => &NAMED,
        TableKind::Mapping => &MAPPING,
        TableKind::Page => &PAGE,
        TableKind::File => &FILE,
        TableKind::Once => &ONCE,
        TableKind::Cookie => &COOKIE,
        TableKind::Settings => &[],
    }
}

/// Whether tables of a kind have whatever keys their author likes, each with a text.
pub(crate) fn has_free_keys(kind: TableKind) -> bool
    ensures { result ≡ spec_has_free_keys kind }
{
    kind == TableKind::Settings
}
