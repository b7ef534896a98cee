//! The descriptor of a deployment, read from TOML 1.1.
//!
//! A floor above the mapping, below the container. [`Deployment::from_toml`] gives the deployment that a document says,
//! with its defaults filled in, or the least of the document's faults. Contracts cite `Fault.fault_of` and
//! `Values.deployment_of`. A document has a fault if there is a place for it in one of its tables (`Fault.has_fault`), and
//! [`Document`] tells each place of the least. Nothing here opens a file, looks for the objects that a descriptor names, or
//! knows what they do.
#![tactic(auto)]

mod checked;
mod cluster;
mod columns;
mod context;
mod cookie;
mod deployment;
mod document;
mod fault;
mod files;
mod hints;
mod items;
mod keys;
mod kinds;
mod least;
mod limits;
mod listed;
mod mappings;
mod members;
mod missing;
mod misspelled;
mod once;
mod pages;
mod paths;
mod place;
mod placed;
mod read;
mod repeats;
mod rules;
mod settings;
mod spelling;
mod unknown;

pub use checked::{Document, Faulty, NotRead};
pub use cookie::{CookieConfig, SameSite};
pub use deployment::{Cluster, Context, Deployment, ErrorPage, Once, PageFor};
pub use fault::ConfigFault;
pub use files::{FileMapping, FileSource};
pub use place::{FaultPlace, Found, TablePlace};
pub use rules::TableKind;
pub use settings::Setting;
