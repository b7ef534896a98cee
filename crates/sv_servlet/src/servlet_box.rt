//! A box of a servlet is a servlet, so that code over `S: Servlet` takes both.

use crate::call::Call;
use crate::reply::Reply;
use crate::servlet::{InitFault, Next, Servlet};
use std::alloc::AllocError;
use sv_session::SessionEdit;

impl Servlet for Box<dyn Servlet> {
    ghost serves = { λ b. (Servlet-box b).serves b.value };

    ghost servlet_phase = { λ b. (Servlet-box b).servlet_phase b.value };

    fn init(&mut self) -> Result<(), InitFault> {
        (**self).init()
    }

    fn service(
        &mut self,
        call: &Call<'_>,
        edit: &mut SessionEdit,
        reply: &mut Reply,
    ) -> Result<Next, AllocError> {
        (**self).service(call, edit, reply)
    }

    fn destroy(&mut self) {
        (**self).destroy()
    }
}
