//! A node alone, and the stream of requests that it serves.
//!
//! Stands on a connection. [`Solo`] is a site: it cites the step of a node for one node and no others. [`serve_next`] cites one
//! definition over the bytes that are unread and written and the site's own step. No node of a cluster uses it.
#![tactic(auto)]

mod answer;
pub mod laws;
mod reading;
mod reply;
mod serve;
mod served;
mod solo;
mod table;

pub use reading::end;
pub use reply::refusal;
pub use serve::serve_next;
pub use served::Served;
pub use solo::Solo;
