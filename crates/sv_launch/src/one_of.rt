//! Objects of one of two types.

use std::alloc::AllocError;
use sv_model::Told;
use sv_servlet::{Before, Call, Filter, InitFault, Listener, Next, Reply, Servlet};
use sv_session::SessionEdit;

/// An object of one of two types, as one type: so the objects of a container have one type, without boxes.
#[derive(Drop)]
pub enum OneOf<A, B> {
    First(A),
    Second(B),
}

impl<A: Servlet, B: Servlet> Servlet for OneOf<A, B> {
    ghost use Rattle.sv_launch.specs.OneOf.{one_of};

    ghost serves = { one_of A.serves B.serves };

    ghost servlet_phase = { one_of A.servlet_phase B.servlet_phase };

    fn init(&mut self) -> Result<(), InitFault> {
        match self {
            OneOf::First(servlet) => servlet.init(),
            OneOf::Second(servlet) => servlet.init(),
        }
    }

    fn service(
        &mut self,
        call: &Call<'_>,
        edit: &mut SessionEdit,
        reply: &mut Reply,
    ) -> Result<Next, AllocError> {
        match self {
            OneOf::First(servlet) => servlet.service(call, edit, reply),
            OneOf::Second(servlet) => servlet.service(call, edit, reply),
        }
    }

    fn destroy(&mut self) {
        match self {
            OneOf::First(servlet) => servlet.destroy(),
            OneOf::Second(servlet) => servlet.destroy(),
        }
    }
}

impl<A: Filter, B: Filter> Filter for OneOf<A, B> {
    ghost use Rattle.sv_launch.specs.OneOf.{one_of};

    ghost filtering = { one_of A.filtering B.filtering };

    ghost filter_phase = { one_of A.filter_phase B.filter_phase };

    fn init(&mut self) -> Result<(), InitFault> {
        match self {
            OneOf::First(filter) => filter.init(),
            OneOf::Second(filter) => filter.init(),
        }
    }

    fn before(
        &mut self,
        call: &Call<'_>,
        edit: &mut SessionEdit,
        reply: &mut Reply,
    ) -> Result<Before, AllocError> {
        match self {
            OneOf::First(filter) => filter.before(call, edit, reply),
            OneOf::Second(filter) => filter.before(call, edit, reply),
        }
    }

    fn after(
        &mut self,
        call: &Call<'_>,
        edit: &mut SessionEdit,
        reply: &mut Reply,
    ) -> Result<(), AllocError> {
        match self {
            OneOf::First(filter) => filter.after(call, edit, reply),
            OneOf::Second(filter) => filter.after(call, edit, reply),
        }
    }

    fn destroy(&mut self) {
        match self {
            OneOf::First(filter) => filter.destroy(),
            OneOf::Second(filter) => filter.destroy(),
        }
    }
}

impl<A: Listener, B: Listener> Listener for OneOf<A, B> {
    ghost use Rattle.sv_launch.specs.OneOf.{one_of};

    ghost hears = { one_of A.hears B.hears };

    ghost noted = { one_of A.noted B.noted };

    fn hear(&mut self, told: &Told) {
        match self {
            OneOf::First(listener) => listener.hear(told),
            OneOf::Second(listener) => listener.hear(told),
        }
    }
}
