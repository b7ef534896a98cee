//! A box of a filter is a filter, so that code over `F: Filter` takes both.

use crate::call::Call;
use crate::filter::{Before, Filter};
use crate::reply::Reply;
use crate::servlet::InitFault;
use std::alloc::AllocError;
use sv_session::SessionEdit;

impl Filter for Box<dyn Filter> {
    ghost filtering = { λ b. (Filter-box b).filtering b.value };

    ghost filter_phase = { λ b. (Filter-box b).filter_phase b.value };

    fn init(&mut self) -> Result<(), InitFault> {
        (**self).init()
    }

    fn before(
        &mut self,
        call: &Call<'_>,
        edit: &mut SessionEdit,
        reply: &mut Reply,
    ) -> Result<Before, AllocError> {
        (**self).before(call, edit, reply)
    }

    fn after(
        &mut self,
        call: &Call<'_>,
        edit: &mut SessionEdit,
        reply: &mut Reply,
    ) -> Result<(), AllocError> {
        (**self).after(call, edit, reply)
    }

    fn destroy(&mut self) {
        (**self).destroy()
    }
}
