//! What to write in the place of what is at fault.

use crate::fault::ConfigFault;
use crate::place::{FaultPlace, TablePlace, kind_of};
use crate::rules::TableKind;

impl FaultPlace<'_> {
    /// What the fault asks for at this place.
    pub fn hint(&self, fault: ConfigFault) -> &'static str {
        let kind = kind_of(self.table);
        match fault {
            ConfigFault::NotToml => "a document of TOML 1.1",
            ConfigFault::MissingField => missing(kind, self.key),
            ConfigFault::WrongKind => wrong_kind(self),
            ConfigFault::UnknownName => unknown(kind, self.key),
            ConfigFault::BadPattern => spelled(kind, self.key),
            ConfigFault::Duplicate => repeated(kind, self.key),
            ConfigFault::LimitExceeded => limit(kind, self),
            ConfigFault::Memory => "more memory",
        }
    }
}

fn missing(kind: TableKind, key: &str) -> &'static str {
    match key {
        "context" => "one or more tables [[context]]",
        "path" => path_of(kind),
        "name" => "a name of 1 to 64 letters, digits, - and _",
        "patterns" => "an array of patterns, such as [\"/shop/*\"]; it may be empty",
        "filter" => "the name of a filter of this context",
        "answers" => "how many answers a session remembers: 1 to 16",
        "file" => "either file or folder: what is served",
        "secure" => {
            "true: browsers drop a cookie with same-site None, or with a name like __Secure-ID or __Host-ID, that isn't"
        }
        _ => "either pattern or servlet: for which paths, or for which servlet",
    }
}

/// What the path of a context, or of an error page, looks like.
fn path_of(kind: TableKind) -> &'static str {
    match kind {
        TableKind::Page => "a path of at most 256 bytes that begins with /",
        TableKind::File => "a pattern, such as /style.css; for a folder one such as /static/*",
        _ => {
            "\"\" for the root, or / and a segment of letters, digits and -._~, once or more; no segment is . or .."
        }
    }
}

fn wrong_kind(place: &FaultPlace<'_>) -> &'static str {
    if place.index.is_some() {
        return member_kind(place.key);
    }
    if kind_of(place.table) == TableKind::Settings {
        return "a text, in quotes";
    }
    match place.key {
        "deadline" | "interval" | "status" | "keys" | "answers" => "an integer",
        "forget" | "secure" => "true or false",
        "ports" => "an array of integers",
        "patterns" | "dispatch" => "an array of texts",
        "cluster" => "a table",
        "once" => "a table, such as { answers = 4 }",
        "cookie" => "a table, such as { secure = true }",
        "settings" => "a table of texts",
        _ => text_or_tables(place),
    }
}

fn member_kind(key: &str) -> &'static str {
    match key {
        "ports" => "an integer",
        "patterns" | "dispatch" => "a text, in quotes",
        _ => "a table",
    }
}

/// A filter mapping names its filter and its servlet; a context lists them.
fn text_or_tables(place: &FaultPlace<'_>) -> &'static str {
    match place.table {
        TablePlace::Document => "an array of tables",
        TablePlace::OfContext(_) => match place.key {
            "path" => "a text, in quotes",
            _ => "an array of tables",
        },
        _ => "a text, in quotes",
    }
}

fn unknown(kind: TableKind, key: &str) -> &'static str {
    match kind {
        TableKind::Top => "one of context and cluster",
        TableKind::Cluster => "one of ports, deadline, secrets, keys and forget",
        TableKind::Context => {
            "one of path, interval, servlet, filter, filter-mapping, listener, error-page, file, once, cookie and settings"
        }
        TableKind::Servlet => "one of name and patterns",
        TableKind::Filter | TableKind::Listener => "name and nothing else",
        TableKind::Mapping => unknown_in_mapping(key),
        TableKind::Page => "one of path, status and fault",
        TableKind::File => "one of path, file, folder and cache",
        TableKind::Once => "one of answers and parameter",
        TableKind::Cookie if key == "same-site" => "one of Strict, Lax and None",
        TableKind::Cookie => "one of name, secure and same-site",
        TableKind::Settings => "any name",
    }
}

fn unknown_in_mapping(key: &str) -> &'static str {
    match key {
        "filter" => "the name of a filter that this context declares",
        "servlet" => "the name of a servlet that this context declares",
        "dispatch" => "one of REQUEST, FORWARD, INCLUDE and ERROR",
        _ => "one of filter, pattern, servlet and dispatch",
    }
}

fn spelled(kind: TableKind, key: &str) -> &'static str {
    match key {
        "path" => path_of(kind),
        "name" if kind == TableKind::Cookie => {
            "a token, as JSESSIONID; one like __Host-ID in the context at the root alone"
        }
        "name" => "letters, digits, - and _ alone",
        "file" | "folder" => {
            "a path below the descriptor's folder: segments of letters, digits and -._~ of which none begins with a dot"
        }
        "cache" => "a value of Cache-Control, such as max-age=3600",
        _ => "a pattern of at most 256 bytes without control characters",
    }
}

fn repeated(kind: TableKind, key: &str) -> &'static str {
    match key {
        "path" if kind == TableKind::File => "a pattern that nothing in this context has before",
        "path" => "a path that no context before has",
        "folder" => "either file or folder",
        "ports" => "a port that no node before has",
        "name" => "a name that none before it has in this context",
        "patterns" => "a pattern that no servlet of this context has before",
        "servlet" => "either pattern or servlet",
        "status" => "a status that no error page before is for",
        "fault" => "either status or fault, and a fault that no error page before is for",
        _ => "a status or a fault: the page for all else is given before",
    }
}

fn limit(kind: TableKind, place: &FaultPlace<'_>) -> &'static str {
    if kind == TableKind::Settings {
        return "at most 64 settings, with names of 1 to 128 bytes and texts of at most 8192";
    }
    match place.key {
        "context" => "at most 16 contexts",
        "ports" if place.index.is_some() => "a port from 1 to 65535",
        "ports" => "1 to 8 ports",
        "deadline" => "1 to 86400 seconds",
        "keys" => "1 to 1048576 keys",
        "interval" => "-2147483648 to 2147483647 seconds",
        "name" | "parameter" => "1 to 64 bytes",
        "answers" => "1 to 16 answers",
        "status" => "a status from 400 to 599",
        key => count_limit(key),
    }
}

/// How many of a context may be.
fn count_limit(key: &str) -> &'static str {
    match key {
        "servlet" | "filter-mapping" | "file" => "at most 64",
        "filter" | "error-page" => "at most 32",
        "listener" => "at most 16",
        _ => "at most 256 patterns in all",
    }
}
