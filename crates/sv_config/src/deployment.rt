//! A deployment: what a descriptor says.

use crate::cookie::CookieConfig;
use crate::files::FileMapping;
use crate::settings::Setting;
use sv_mapping::{FilterMapping, Mappings};

/// The web applications that each node serves, and the nodes.
#[derive(Debug, Drop)]
pub struct Deployment {
    /// The nodes.
    pub cluster: Cluster,
    /// The contexts in the order of the descriptor; a context's number is its place, from 0.
    pub contexts: Vec<Context>,
}

/// The nodes of a deployment.
#[derive(Debug, Drop)]
pub struct Cluster {
    /// The port of each node on the loopback address, by the node's number. Empty where the descriptor gives none:
    /// then there is one node, which listens nowhere.
    pub ports: Vec<u16>,
    /// For how many seconds a request waits for its session.
    pub deadline: u32,
    /// The path of the file that secrets are read from.
    pub secrets: Option<String>,
    /// The keys that a node knows, at most.
    pub keys: u32,
    /// Nodes forget their own keys that have ended there.
    pub forget: bool,
}

/// A web application.
#[derive(Debug, Drop)]
pub struct Context {
    /// The context path: empty, or like `/shop`.
    pub path: String,
    /// For how many seconds an idle session is kept; 0 or less for ever.
    pub interval: i32,
    /// The names of its servlets, in order: those that it declares, and after them, for each of `files`, its path.
    pub servlets: Vec<String>,
    /// The patterns of its servlets, each with the place of its servlet in `servlets`.
    pub mappings: Mappings,
    /// The names of its filters, in order.
    pub filters: Vec<String>,
    /// Its filter mappings, in order; filters and servlets are given by their places in `filters` and `servlets`.
    pub filter_mappings: Vec<FilterMapping>,
    /// The names of its listeners, in order.
    pub listeners: Vec<String>,
    /// Its error pages, in order.
    pub error_pages: Vec<ErrorPage>,
    /// What its sessions remember, so that a request that is sent again counts once; none where they remember nothing.
    pub once: Option<Once>,
    /// Its session cookie.
    pub cookie: CookieConfig,
    /// The texts that its servlets and filters are given, in the order of their names.
    pub settings: Vec<Setting>,
    /// The files that it serves, in order; the servlet that serves one has the path as its name.
    pub files: Vec<FileMapping>,
}

/// What sessions remember of the requests that have a key, so that one that is sent again is answered as it was before.
#[derive(Debug, Drop)]
pub struct Once {
    /// How many answers a session remembers, from 1 to 16.
    pub answers: u8,
    /// The parameter whose value is the key of a request; where it has none, the field `Idempotency-Key` has the key.
    pub parameter: Option<String>,
}

/// An error page of a context.
#[derive(Debug, Drop)]
pub struct ErrorPage {
    /// The path within the context that is dispatched to.
    pub path: String,
    /// What the page is for.
    pub choice: PageFor,
}

/// What an error page is for.
#[derive(Debug, Drop)]
pub enum PageFor {
    /// A status, from 400 to 599.
    Status(u16),
    /// A fault of a servlet or filter, by its name.
    Fault(String),
    /// All that no other page of the context is for.
    Default,
}
