//! What a node tells its operator while it runs: a log, and figures.
//!
//! A log is a file of lines in logfmt, `time level what key=value ..`, or standard error ([`Log`]). Figures are a file in the text format
//! of Prometheus, version 0.0.4, written anew every few seconds ([`Metrics`]). Both are made of [`Event`]s, which have numbers, names of
//! this crate's own and keys of sessions, and no text that a client has sent: so a client can forge no line, and what a client keeps to
//! itself, as a cookie's secret, a value or a body, has no way into either. A [`Report`] has both, or none, and then an event costs
//! nothing but the look whether there is one. Who reads figures calls them by [`names`], as they are written.
#![tactic(auto)]

mod census;
mod durations;
mod event;
mod failure;
mod family;
mod figures;
mod level;
mod log;
mod loss;
mod metrics;
mod milestone;
pub mod names;
mod phase;
mod process;
mod quoted;
mod reach;
mod report;
mod stamp;
mod tally;
mod turnover;

pub use census::Census;
pub use event::{Event, Refusal};
pub use failure::{Failure, Site};
pub use family::{Family, FigureKind};
pub use figures::{Figures, Gauges};
pub use level::Level;
pub use log::{Log, STANDARD_ERROR};
pub use loss::Loss;
pub use metrics::{Metrics, can_be_figures};
pub use milestone::Milestone;
pub use phase::Phase;
pub use process::Process;
pub use quoted::Quoted;
pub use reach::{NODES, Peers, Reach};
pub use report::{Report, ReportFault};
pub use stamp::Stamp;
pub use turnover::Turnover;
