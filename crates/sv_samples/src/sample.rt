//! A servlet of the samples that is one of several kinds, as one type.

ghost use Rattle.std.specs.Prelude.{◌≡◌, option_map};
ghost use Rattle.sv_samples.specs.Sample as spec;

use crate::{Count, Faulty, Forwarder, Hello, Includer, Login, Renew, Snoop};
use std::alloc::Global;
use sv_servlet::{Call, Next, Reply};
use sv_session::SessionEdit;
use sv_web::{HttpServlet, Refusal};

/// What answers as one of the samples does. So a container whose servlets are of several kinds has a type without boxes.
#[derive(Drop)]
pub enum Sample {
    Hello(Hello),
    Count(Count),
    Snoop(Snoop),
    Login(Login),
    Renew(Renew),
    Includer(Includer),
    Forwarder(Forwarder),
    Faulty(Faulty),
}

impl Sample {
    /// The sample of a word, such as `count`.
    pub fn named(word: &str) -> Option<Sample>
        ensures { option_map spec.work_of result ≡ spec.work_named word.now }
    {
        match word {
            "hello" => Some(Sample::Hello(Hello)),
            "count" => Some(Sample::Count(Count)),
            "snoop" => Some(Sample::Snoop(Snoop)),
            "login" => Some(Sample::Login(Login)),
            "renew" => Some(Sample::Renew(Renew)),
            "includer" => Some(Sample::Includer(Includer)),
            "forwarder" => Some(Sample::Forwarder(Forwarder)),
            "faulty" => Some(Sample::Faulty(Faulty)),
            _ => None,
        }
    }
}

impl HttpServlet for Sample {
    ghost use Rattle.sv_samples.specs.Sample.{work_of};

    ghost work = { work_of };

    fn serve(
        &mut self,
        alloc: Global,
        call: &Call<'_>,
        edit: &mut SessionEdit,
        reply: &mut Reply,
    ) -> Result<Next, Refusal> {
        match self {
            Sample::Hello(sample) => sample.serve(alloc, call, edit, reply),
            Sample::Count(sample) => sample.serve(alloc, call, edit, reply),
            Sample::Snoop(sample) => sample.serve(alloc, call, edit, reply),
            Sample::Login(sample) => sample.serve(alloc, call, edit, reply),
            Sample::Renew(sample) => sample.serve(alloc, call, edit, reply),
            Sample::Includer(sample) => sample.serve(alloc, call, edit, reply),
            Sample::Forwarder(sample) => sample.serve(alloc, call, edit, reply),
            Sample::Faulty(sample) => sample.serve(alloc, call, edit, reply),
        }
    }
}
