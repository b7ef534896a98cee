//! Seats of a hall, which are booked by whoever has logged in.
//!
//! The words of the program `example_booking` mean what they mean to the program `node`.
#![tactic(auto)]

mod login;
mod members;
mod oops;
mod seats;

use login::Login;
use members::Members;
use oops::Oops;
use seats::Seats;
use std::process::ExitCode;
use sv_launch::{Application, launch};
use sv_web::Methods;

fn main(rt: HostRuntime) -> ExitCode {
    let booking = Application::new(rt.alloc())
        .servlet("login", Methods::new().get(Login).post(Login))
        .servlet("seats", Methods::new().get(Seats).post(Seats))
        .servlet("oops", Oops)
        .filter("members", Members);
    launch(&rt, "example_booking", &booking)
}
