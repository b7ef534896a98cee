//! What the servlets of the shop know.

use example_cart::Article;
use std::alloc::Global;

/// What the servlets of the shop know.
#[derive(Clone, Copy)]
pub struct Store {
    pub alloc: Global,
    /// What the shop sells.
    pub articles: &'static [Article],
    /// The number of the node that they run on.
    pub node: u8,
}
