//! The servlets of a tennis club's site: its members log in, book courts by forms or by JSON, and send lists that are shown as tables.
//!
//! Stands on `sv_web`, whose filter `Csrf` is to stand before what takes a form. The descriptor names the members. Each page is in
//! English or German.
#![tactic(auto)]

mod bookings;
mod courts;
mod frame;
mod guard;
mod kept;
mod language;
mod league;
mod login;
mod oops;
mod slots;
mod upload;

pub use bookings::Bookings;
pub use courts::Courts;
pub use guard::Guard;
pub use language::Choice;
pub use league::League;
pub use login::{Login, Logout};
pub use oops::Oops;
pub use upload::Upload;
