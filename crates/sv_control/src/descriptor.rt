//! What a descriptor says, and where it is at fault, as lines for an operator.

ghost use Rattle.std.specs.Prelude.{◌≡◌, IfOk, Some, None};
ghost use Rattle.toml.specs.Data.{Members};
ghost use Rattle.toml.specs.Parse.{parse_document};
ghost use Rattle.toml.specs.View.{table_view};
ghost use Rattle.sv_config.specs.Fault.{IsFaultOf, fault_of};
ghost use Rattle.sv_config.specs.declared.fault.ConfigFault.{ConfigFault as FaultOfConfig};

use crate::once::{push_once, warning_of};
use std::alloc::{AllocError, Global};
use sv_config::{
    Cluster, ConfigFault, Context, Deployment, Document, ErrorPage, FaultPlace, Faulty, NotRead,
    PageFor,
};
use sv_mapping::{Dispatcher, Dispatchers, FilterMapping, FilterTarget};

/// The keys that a node knows at most, where its descriptor says nothing of them.
const USUAL_KEYS: u32 = 65_536;

/// Which of a context's filter mappings are called first, and which after them.
#[derive(Clone, Copy, PartialEq, Eq)]
enum MappedBy {
    Pattern,
    Servlet,
}

/// The dispatchers in the order of their words.
const DISPATCHERS: [Dispatcher; 4] = [
    Dispatcher::Request,
    Dispatcher::Forward,
    Dispatcher::Include,
    Dispatcher::Error,
];

/// What is told of a descriptor.
#[derive(Drop)]
pub struct Look {
    /// Its least fault, if it has one.
    pub fault: Option<ConfigFault>,
    /// Lines: the nodes and the contexts, or the fault and the places where it stands.
    pub text: String,
    /// What is to be warned of, though it is no fault.
    pub warning: Option<String>,
}

/// Looks at a text as a node reads its descriptor.
pub fn look_at(alloc: Global, text: &str) -> Result<Look, AllocError>
    ensures sound { IfOk result (λ look. look.fault ≡ None → (t : Members) × (parse_document text.now ≡ Some t) × (fault_of t ≡ None)) }
    ensures faulty { IfOk result (λ look. (fault : FaultOfConfig) → look.fault ≡ Some fault → IsFaultOf text.now fault) }
{
    match Document::from_toml(alloc, text) {
        Ok(document) => look_into(alloc, text, &document),
        Err(NotRead::Memory) => Err(AllocError),
        Err(refused) => Ok(Look {
            fault: Some(ConfigFault::NotToml),
            text: refusal_text(alloc, &refused)?,
            warning: None,
        }),
    }
}

/// Looks for the faults of a document, and where it has none at what it says.
fn look_into(alloc: Global, text: &str, document: &Document) -> Result<Look, AllocError>
    ensures { IfOk result (λ look. look.fault ≡ fault_of (table_view document.now.table)) }
{
    match document.faults(alloc)? {
        Some(faulty) => Ok(Look {
            fault: Some(faulty.fault),
            text: faults_text(alloc, &faulty)?,
            warning: None,
        }),
        None => said(alloc, text, document),
    }
}

/// What a descriptor without fault says.
fn said(alloc: Global, text: &str, document: &Document) -> Result<Look, AllocError>
    ensures { IfOk result (λ look. look.fault ≡ None) }
{
    match Deployment::from_toml(alloc, text) {
        Ok(deployment) => look_of(alloc, &deployment, document),
        Err(_) => Err(AllocError),
    }
}

/// What a deployment says. The document is its own.
fn look_of(alloc: Global, deployment: &Deployment, document: &Document) -> Result<Look, AllocError>
    ensures { IfOk result (λ look. look.fault ≡ None) }
{
    let warning = warning_of(alloc, deployment)?;
    Ok(Look {
        fault: None,
        text: deployment_text(alloc, deployment, document)?,
        warning,
    })
}

/// Why a text is no document, after the fault's name.
fn refusal_text(alloc: Global, refused: &NotRead) -> Result<String, AllocError> {
    let text = format!(in alloc; "NotToml\n{refused}")?;
    String::from_str(alloc, text.trim_end())
}

/// A fault's name, and a line for each place where it stands with what to write there.
fn faults_text(alloc: Global, faulty: &Faulty<'_>) -> Result<String, AllocError> {
    let mut text = format!(in alloc; "{:?}", faulty.fault)?;
    for place in &faulty.places {
        push_place(alloc, &mut text, place, faulty)?;
    }
    Ok(text)
}

fn push_place(
    alloc: Global,
    text: &mut String,
    place: &FaultPlace<'_>,
    faulty: &Faulty<'_>,
) -> Result<(), AllocError> {
    let hint = place.hint(faulty.fault);
    let line = format!(in alloc; "\n{place}; write {hint}")?;
    text.push_str(line.as_str())
}

/// The nodes of a deployment and its contexts, a line for each of their parts. The document is that of the deployment.
fn deployment_text(
    alloc: Global,
    deployment: &Deployment,
    document: &Document,
) -> Result<String, AllocError> {
    let mut text = cluster_text(alloc, &deployment.cluster)?;
    for (number, context) in deployment.contexts.iter().enumerate() {
        push_context(alloc, &mut text, number, context, document)?;
    }
    Ok(text)
}

fn nodes_text(alloc: Global, ports: &[u16]) -> Result<String, AllocError> {
    if ports.is_empty() {
        return String::from_str(alloc, "node 0, no port\n");
    }
    let mut text = String::new(alloc);
    for (node, port) in ports.iter().enumerate() {
        let line = format!(in alloc; "node {node}, port {port}\n")?;
        text.push_str(line.as_str())?;
    }
    Ok(text)
}

fn cluster_text(alloc: Global, cluster: &Cluster) -> Result<String, AllocError> {
    let nodes = nodes_text(alloc, &cluster.ports)?;
    let deadline = cluster.deadline;
    let keys = keys_text(alloc, cluster)?;
    match &cluster.secrets {
        Some(secrets) => {
            format!(in alloc; "{nodes}deadline {deadline} seconds\nsecrets {secrets}{keys}")
        }
        None => format!(in alloc; "{nodes}deadline {deadline} seconds\nsecrets counted{keys}"),
    }
}

/// How many keys a node knows, and whether it forgets some; nothing where both are as they are of themselves.
fn keys_text(alloc: Global, cluster: &Cluster) -> Result<String, AllocError> {
    let keys = cluster.keys;
    if cluster.forget {
        format!(in alloc; "\nkeys {keys}, forgotten where they end at home")
    } else if keys == USUAL_KEYS {
        Ok(String::new(alloc))
    } else {
        format!(in alloc; "\nkeys {keys}")
    }
}

/// A context's front, what its sessions remember, its servlets, its filters in the order in which they are called, its listeners and error pages.
fn push_context(
    alloc: Global,
    text: &mut String,
    number: usize,
    context: &Context,
    document: &Document,
) -> Result<(), AllocError> {
    push_front(alloc, text, number, context)?;
    push_once(alloc, text, context.once.as_ref())?;
    push_servlets(alloc, text, number, context, document)?;
    push_mappings(alloc, text, context, MappedBy::Pattern)?;
    push_mappings(alloc, text, context, MappedBy::Servlet)?;
    push_unmapped(alloc, text, context)?;
    push_listeners(alloc, text, &context.listeners)?;
    push_pages(alloc, text, &context.error_pages)
}

fn push_front(
    alloc: Global,
    text: &mut String,
    number: usize,
    context: &Context,
) -> Result<(), AllocError> {
    let (path, interval) = (&context.path, context.interval);
    let line = if interval > 0 {
        format!(in alloc;
            "\ncontext {number} {path:?}, sessions idle for {interval} seconds expire"
        )?
    } else {
        format!(in alloc; "\ncontext {number} {path:?}, sessions never expire")?
    };
    text.push_str(line.as_str())
}

fn push_servlets(
    alloc: Global,
    text: &mut String,
    number: usize,
    context: &Context,
    document: &Document,
) -> Result<(), AllocError> {
    for (servlet, name) in context.servlets.iter().enumerate() {
        let line = format!(in alloc; "\n  servlet {name}:")?;
        text.push_str(line.as_str())?;
        push_patterns(alloc, text, &document.patterns(alloc, number, servlet)?)?;
    }
    Ok(())
}

fn push_patterns(alloc: Global, text: &mut String, patterns: &[&str]) -> Result<(), AllocError> {
    for pattern in patterns {
        let part = format!(in alloc; " {pattern:?}")?;
        text.push_str(part.as_str())?;
    }
    Ok(())
}

/// Adds the filter mappings of one of the two sorts.
fn push_mappings(
    alloc: Global,
    text: &mut String,
    context: &Context,
    sort: MappedBy,
) -> Result<(), AllocError> {
    for mapping in &context.filter_mappings {
        if sort_of(mapping) == sort {
            push_mapping(alloc, text, context, mapping)?;
        }
    }
    Ok(())
}

fn sort_of(mapping: &FilterMapping) -> MappedBy {
    match &mapping.target {
        FilterTarget::Pattern(_) => MappedBy::Pattern,
        FilterTarget::Servlet(_) => MappedBy::Servlet,
    }
}

fn push_mapping(
    alloc: Global,
    text: &mut String,
    context: &Context,
    mapping: &FilterMapping,
) -> Result<(), AllocError> {
    let filter = name_at(&context.filters, mapping.filter);
    let line = match &mapping.target {
        FilterTarget::Pattern(pattern) => {
            format!(in alloc; "\n  filter {filter}: {:?} on", pattern.as_str())?
        }
        FilterTarget::Servlet(servlet) => {
            let servlet = name_at(&context.servlets, *servlet);
            format!(in alloc; "\n  filter {filter}: servlet {servlet} on")?
        }
    };
    text.push_str(line.as_str())?;
    push_dispatchers(text, mapping.dispatchers)
}

fn push_dispatchers(text: &mut String, dispatchers: Dispatchers) -> Result<(), AllocError> {
    for dispatcher in &DISPATCHERS {
        if dispatchers.contains(*dispatcher) {
            text.push_str(" ")?;
            text.push_str(dispatcher.word())?;
        }
    }
    Ok(())
}

/// The name at a place, or nothing.
fn name_at(names: &[String], place: usize) -> &str {
    match names.get(place) {
        Some(name) => name.as_str(),
        None => "",
    }
}

/// Adds the filters that are never called.
fn push_unmapped(alloc: Global, text: &mut String, context: &Context) -> Result<(), AllocError> {
    for (filter, name) in context.filters.iter().enumerate() {
        if !is_mapped(&context.filter_mappings, filter) {
            let line = format!(in alloc; "\n  filter {name}: not mapped")?;
            text.push_str(line.as_str())?;
        }
    }
    Ok(())
}

fn is_mapped(mappings: &[FilterMapping], filter: usize) -> bool {
    mappings.iter().any(|mapping| mapping.filter == filter)
}

fn push_listeners(
    alloc: Global,
    text: &mut String,
    listeners: &[String],
) -> Result<(), AllocError> {
    for name in listeners {
        let line = format!(in alloc; "\n  listener {name}")?;
        text.push_str(line.as_str())?;
    }
    Ok(())
}

fn push_pages(alloc: Global, text: &mut String, pages: &[ErrorPage]) -> Result<(), AllocError> {
    for page in pages {
        let line = page_text(alloc, page)?;
        text.push_str(line.as_str())?;
    }
    Ok(())
}

fn page_text(alloc: Global, page: &ErrorPage) -> Result<String, AllocError> {
    let path = &page.path;
    match &page.choice {
        PageFor::Status(status) => format!(in alloc; "\n  error page for {status}: {path:?}"),
        PageFor::Fault(fault) => format!(in alloc; "\n  error page for fault {fault}: {path:?}"),
        PageFor::Default => format!(in alloc; "\n  error page for all else: {path:?}"),
    }
}
