//! A request with all that is lent for its answer, in one value.

use std::alloc::Global;
use sv_servlet::{Call, Reply};
use sv_session::SessionEdit;

/// A request, and the edit and the reply that are lent for its answer.
///
/// The fields of the call are read from a variable: `let call = web.call;`, then `call.params`.
#[derive(Drop)]
pub struct Exchange<'a> {
    pub alloc: Global,
    pub call: &'a Call<'a>,
    pub edit: &'a mut SessionEdit,
    pub reply: &'a mut Reply,
}
