//! The text of figures, as Prometheus reads it (text format, version 0.0.4).

use crate::durations::{Durations, LENGTHS};
use std::alloc::AllocError;
use std::fmt;

/// What a figure does.
#[derive(Clone, Copy)]
pub enum FigureKind {
    /// It only rises, from 0 at the start.
    Counter,
    Gauge,
    /// How many were at most so long, for several lengths; how long all were, and how many.
    Histogram,
}

impl fmt::Display for FigureKind {
    fn fmt<W: fmt::Write>(&self, f: &mut fmt::Formatter<W>) -> fmt::Result {
        f.write_str(match self {
            FigureKind::Counter => "counter",
            FigureKind::Gauge => "gauge",
            FigureKind::Histogram => "histogram",
        })
    }
}

/// Figures of one name.
#[derive(Clone, Copy)]
pub struct Family {
    /// After `kegbramble_`.
    pub name: &'static str,
    pub kind: FigureKind,
    pub help: &'static str,
}

/// Which of the figures of a name it is.
#[derive(Clone, Copy)]
pub struct Label {
    pub key: &'static str,
    pub value: &'static str,
}

impl Family {
    /// The lines before its figures.
    pub fn head(&self, out: &mut String) -> Result<(), AllocError> {
        let Family { name, kind, help } = *self;
        writeln!(out, "# HELP kegbramble_{name} {help}")?;
        writeln!(out, "# TYPE kegbramble_{name} {kind}")
    }

    /// A figure of a node.
    pub fn sample(&self, out: &mut String, node: u8, value: u64) -> Result<(), AllocError> {
        let name = self.name;
        writeln!(out, "kegbramble_{name}{{node=\"{node}\"}} {value}")
    }

    /// A figure of a node in seconds.
    pub fn seconds(&self, out: &mut String, node: u8, nanoseconds: u64) -> Result<(), AllocError> {
        self.seconds_of(out, "", node, nanoseconds)
    }

    /// The same of a part of the name.
    fn seconds_of(
        &self,
        out: &mut String,
        part: &'static str,
        node: u8,
        nanoseconds: u64,
    ) -> Result<(), AllocError> {
        let name = self.name;
        let (seconds, rest) = (nanoseconds / 1_000_000_000, nanoseconds % 1_000_000_000);
        writeln!(
            out,
            "kegbramble_{name}{part}{{node=\"{node}\"}} {seconds}.{rest:09}"
        )
    }

    /// How many were at most so long.
    fn bucket(
        &self,
        out: &mut String,
        node: u8,
        most: &'static str,
        count: u64,
    ) -> Result<(), AllocError> {
        let name = self.name;
        writeln!(
            out,
            "kegbramble_{name}_bucket{{node=\"{node}\",le=\"{most}\"}} {count}"
        )
    }

    /// A histogram of a node.
    pub fn histogram(
        &self,
        out: &mut String,
        node: u8,
        durations: &Durations,
    ) -> Result<(), AllocError> {
        self.head(out)?;
        let mut count = 0_u64;
        for (most, more) in LENGTHS.iter().zip(&durations.counts) {
            count = count.saturating_add(*more);
            self.bucket(out, node, most.word, count)?;
        }
        self.bucket(out, node, "+Inf", durations.all)?;
        self.seconds_of(out, "_sum", node, durations.nanoseconds)?;
        let name = self.name;
        let all = durations.all;
        writeln!(out, "kegbramble_{name}_count{{node=\"{node}\"}} {all}")
    }

    /// One of several figures of a node.
    pub fn labelled(
        &self,
        out: &mut String,
        node: u8,
        label: Label,
        value: u64,
    ) -> Result<(), AllocError> {
        let name = self.name;
        let Label { key, value: word } = label;
        writeln!(
            out,
            "kegbramble_{name}{{node=\"{node}\",{key}=\"{word}\"}} {value}"
        )
    }
}
