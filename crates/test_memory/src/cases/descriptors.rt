//! Descriptors: the deployment of one, its document with its faults and patterns, and what an operator is told of it.

use crate::again::{Refusals, Unshown, again, done};
use std::alloc::{AllocError, Global};
use sv_config::{Deployment, Document};
use sv_control::look_at;

type Shown = Result<String, Unshown>;

/// Something of each table.
const DESCRIPTOR: &str = r#"cluster = { ports = [18080, 18081], deadline = 7 }
[[context]]
path = "/shop"
servlet = [{ name = "hello", patterns = ["/hello", "*.hi"] }]
filter = [{ name = "gate" }]
filter-mapping = [{ filter = "gate", pattern = "/*", dispatch = ["REQUEST", "ERROR"] }]
listener = [{ name = "tally" }]
error-page = [{ path = "/oops", fault = "x" }, { path = "/gone", status = 404 }]
"#;

/// A text that is no document: its last quote stays open.
const NO_DOCUMENT: &str = "[[context]]\npath = \"/shop";

/// A descriptor for each fault that a document may have, which stands at two places.
const FAULTY: [&str; 6] = [
    // no patterns
    r#"[[context]]
path = "/shop"
servlet = [{ name = "hello" }, { name = "count" }]
"#,
    // a number in the place of a text
    r#"[[context]]
path = "/shop"
servlet = [{ name = 1, patterns = [2] }]
"#,
    // a filter and a servlet that aren't declared
    r#"[[context]]
path = "/shop"
filter-mapping = [{ filter = "gate", servlet = "hello" }]
"#,
    // a blank in a name, and a control character in a pattern
    r#"[[context]]
path = "/shop"
servlet = [{ name = "a b", patterns = ["/\u0001"] }]
"#,
    // a name and a pattern that stand there before
    r#"[[context]]
path = "/shop"
servlet = [{ name = "hello", patterns = ["/a"] }, { name = "hello", patterns = ["/a"] }]
"#,
    // two ports out of their range
    r#"cluster = { ports = [0, 65536] }
[[context]]
path = "/shop"
"#,
];

pub fn deployment(alloc: Global, refusals: &mut Refusals) -> Shown {
    let deployment = again!(refusals, Deployment::from_toml(alloc, DESCRIPTOR))?;
    done(format!(in alloc; "{deployment:?}"))
}

/// The paths of a deployment's contexts.
fn paths_of(alloc: Global, deployment: &Deployment) -> Result<String, AllocError> {
    let paths = deployment.context_paths(alloc)?;
    format!(in alloc; "{paths:?}")
}

pub fn context_paths(alloc: Global, refusals: &mut Refusals) -> Shown {
    let deployment = done(Deployment::from_toml(alloc, DESCRIPTOR))?;
    match paths_of(alloc, &deployment) {
        Ok(paths) => Ok(paths),
        Err(AllocError) => {
            refusals.add();
            done(paths_of(alloc, &deployment))
        }
    }
}

/// The patterns of the first servlet.
fn patterns_of(alloc: Global, document: &Document) -> Result<String, AllocError> {
    let patterns = document.patterns(alloc, 0, 0)?;
    format!(in alloc; "{patterns:?}")
}

pub fn document(alloc: Global, refusals: &mut Refusals) -> Shown {
    let document = again!(refusals, Document::from_toml(alloc, DESCRIPTOR))?;
    done(patterns_of(alloc, &document))
}

pub fn patterns(alloc: Global, refusals: &mut Refusals) -> Shown {
    let document = done(Document::from_toml(alloc, DESCRIPTOR))?;
    match patterns_of(alloc, &document) {
        Ok(patterns) => Ok(patterns),
        Err(AllocError) => {
            refusals.add();
            done(patterns_of(alloc, &document))
        }
    }
}

/// A document's least fault, and each place where it stands.
fn faults_of(alloc: Global, document: &Document) -> Result<String, AllocError> {
    let faulty = document.faults(alloc)?;
    format!(in alloc; "{faulty:?}")
}

fn faults_again(alloc: Global, refusals: &mut Refusals, text: &str) -> Shown {
    let document = done(Document::from_toml(alloc, text))?;
    match faults_of(alloc, &document) {
        Ok(faults) => Ok(faults),
        Err(AllocError) => {
            refusals.add();
            done(faults_of(alloc, &document))
        }
    }
}

/// The faults of each document at fault, and that one without a fault has none.
pub fn faults(alloc: Global, refusals: &mut Refusals) -> Shown {
    let mut line = faults_again(alloc, refusals, DESCRIPTOR)?;
    for text in FAULTY {
        line.push_str(faults_again(alloc, refusals, text)?.as_str())?;
    }
    Ok(line)
}

/// What is told of a descriptor.
fn told_of(alloc: Global, text: &str) -> Result<String, AllocError> {
    let look = look_at(alloc, text)?;
    format!(in alloc; "{:?} {}", look.fault, look.text)
}

fn told_again(alloc: Global, refusals: &mut Refusals, text: &str) -> Shown {
    match told_of(alloc, text) {
        Ok(told) => Ok(told),
        Err(AllocError) => {
            refusals.add();
            done(told_of(alloc, text))
        }
    }
}

pub fn look(alloc: Global, refusals: &mut Refusals) -> Shown {
    told_again(alloc, refusals, DESCRIPTOR)
}

pub fn look_at_none(alloc: Global, refusals: &mut Refusals) -> Shown {
    told_again(alloc, refusals, NO_DOCUMENT)
}

pub fn look_at_faults(alloc: Global, refusals: &mut Refusals) -> Shown {
    let mut line = String::new(alloc);
    for text in FAULTY {
        line.push_str(told_again(alloc, refusals, text)?.as_str())?;
    }
    Ok(line)
}
