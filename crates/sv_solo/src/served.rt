//! What a call did.

use sv_connection::Outcome;
use sv_model::Output;

/// What a call for a connection did.
#[derive(Drop)]
pub struct Served {
    pub outcome: Outcome,
    /// All that the site's step put out, in order; empty if it wasn't stepped.
    pub outputs: Vec<Output>,
}
