//! The site of a tennis club.
//!
//! The words of the program `example_club` mean what they mean to the program `node`.
#![tactic(auto)]

use club_site::{Bookings, Choice, Courts, Guard, League, Login, Logout, Oops, Upload};
use std::process::ExitCode;
use sv_launch::{Application, launch};
use sv_web::{Csrf, Methods};

fn main(rt: HostRuntime) -> ExitCode {
    let club = Application::new(rt.alloc())
        .servlet("login", Methods::new().get(Login).post(Login))
        .servlet("logout", Methods::new().post(Logout))
        .servlet("courts", Methods::new().get(Courts).post(Courts))
        .servlet("bookings", Methods::new().get(Bookings).post(Bookings))
        .servlet("league", Methods::new().get(League))
        .servlet("upload", Methods::new().get(Upload).post(Upload))
        .servlet("language", Methods::new().get(Choice))
        .servlet("oops", Oops)
        .filter("guard", Guard)
        .filter("csrf", Csrf);
    launch(&rt, "example_club", &club)
}
