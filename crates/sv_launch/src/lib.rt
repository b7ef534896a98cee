//! What a program of nodes does with its words: the descriptor that it serves by, the objects that the descriptor names, and what they
//! are started for.
//!
//! The top of the floors, under a `main` of a few lines. An [`Application`] is a table of names, each with the object that it stands
//! for, and [`launch`] is what `main` does with it. [`read_words`] reads the command line, [`read_config`] the descriptor;
//! [`objects_of`] proves that the objects are new and what the table says of their names; [`once`] that a stream of requests is served
//! call by call, to its end; [`read_served`] reads the files that contexts serve.
#![tactic(auto)]

mod application;
mod descriptor;
mod failure;
mod fault;
mod files;
mod idle;
mod kind;
mod objects;
mod one_of;
mod program;
mod purpose;
mod reading;
mod served;
mod stream;
mod sums;
mod table;
mod words;

pub use application::{Application, Applications};
pub use descriptor::{deployment_in, read_config};
pub use fault::Fault;
pub use files::{Clash, Owner, Written};
pub use idle::Idle;
pub use kind::{FilesOr, FiltersOf, ListenersOf, NamedObjects, ServletsOf};
pub use objects::objects_of;
pub use one_of::OneOf;
pub use program::{launch, number_of, words_of};
pub use purpose::{Purpose, Running};
pub use reading::{NotServed, ReadFault, WhyNot, read_served};
pub use served::{ServedFiles, served_at};
pub use stream::{OnceFault, once};
pub use table::{Empty, FilterTable, ListenerTable, ServletTable, With};
pub use words::{Arguments, Greetings, NodeWords, Options, Words, read_words};
