//! Sample servlets, filters and a listener, each with a meaning that is written down and proved.
//!
//! Stands on `sv_web` and on servlets, filters and listeners. What a sample means is a definition of the file of its name in
//! `specs/`, and each call is that meaning whatever the object has lived through: a servlet of a sample is a
//! [`sv_servlet::GenericServlet`] of a [`sv_web::Web`] of it, and a filter a [`sv_servlet::GenericFilter`] likewise, which count their
//! calls in a number that no answer shows. [`Sample::named`] has each servlet by its word, and [`BUILT_IN`] is the
//! descriptor that the program `node` has built in. What else a descriptor's names stand for is `sv_showcase`'s.
#![tactic(auto)]

mod count;
mod descriptor;
mod faulty;
mod forwarder;
mod gate;
mod hello;
mod includer;
mod login;
mod renew;
mod sample;
mod snoop;
mod stamp;
mod tally;

pub use count::Count;
pub use descriptor::BUILT_IN;
pub use faulty::Faulty;
pub use forwarder::Forwarder;
pub use gate::Gate;
pub use hello::Hello;
pub use includer::Includer;
pub use login::Login;
pub use renew::Renew;
pub use sample::Sample;
pub use snoop::Snoop;
pub use stamp::Stamp;
pub use tally::Tally;
