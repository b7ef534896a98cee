//! What a dispatch works on.

use crate::hosted::Hosted;
use crate::page::ErrorPage;
use sv_mapping::{FilterMapping, Mappings};
use sv_servlet::Reply;
use sv_session::SessionEdit;

/// The objects of a context with what leads to them, and what they are lent.
#[derive(Drop)]
pub struct Stage<S, F> {
    pub servlets: Vec<Hosted<S>>,
    pub filters: Vec<Hosted<F>>,
    pub patterns: Mappings,
    pub chains: Vec<FilterMapping>,
    pub pages: Vec<ErrorPage>,
    pub edit: SessionEdit,
    pub reply: Reply,
}
