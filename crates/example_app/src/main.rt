//! An application of one servlet, to begin with.
//!
//! The words of the program `example_app` mean what they mean to the program `node`; a descriptor's names stand for the objects below.
#![tactic(auto)]

mod welcome;

use std::process::ExitCode;
use sv_launch::{Application, launch};
use sv_web::Methods;
use welcome::Welcome;

fn main(rt: HostRuntime) -> ExitCode {
    let welcome = Methods::new().get(Welcome);
    let application = Application::new(rt.alloc()).servlet("welcome", welcome);
    launch(&rt, "example_app", &application)
}
