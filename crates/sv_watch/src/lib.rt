//! Figures of nodes, as an operator looks at them: what their files say, and a table of several nodes.
//!
//! A node writes its figures in the text format of Prometheus, version 0.0.4 (`node --metrics FILE`), by `sv_log`, which has their names.
//! [`Figures::read`] takes such a text whole or not at all, [`figure_of`] takes a line apart, and a [`Column`] keeps what a node's file said
//! last and before that, so that the table ([`table_of`]) says how often a second things happen. Files, the clock and the screen are
//! `kegctl`'s.
#![tactic(auto)]

mod cell;
mod column;
mod fault;
mod figure;
mod figures;
mod number;
mod row;
mod strip;
mod table;

pub use column::Column;
pub use fault::FiguresFault;
pub use figure::{Figure, figure_of};
pub use figures::Figures;
pub use number::{Rate, nanoseconds_of, rate_of, whole_of};
pub use table::{Medium, screen_of, table_of};
