//! Why a node's figures aren't shown.

use std::alloc::{AllocError, AllocFailed};
use thiserror::Error;

/// Why a node's figures aren't shown.
#[derive(Clone, Copy, Debug, PartialEq, Eq, Error)]
pub enum FiguresFault {
    #[error("isn't there; does a node run with --metrics?")]
    Missing,
    #[error("can't be read")]
    Unreadable,
    /// Counted from 1.
    #[error("is no file of figures: line {0} is none of a node's")]
    Line(usize),
    #[error("ends before its last figure")]
    Cut,
    #[error("is of node {0}, which the CONFIG hasn't got")]
    Stranger(u8),
    #[error("memory was refused")]
    Memory,
}

impl From<AllocError> for FiguresFault {
    fn from(_: AllocError) -> Self {
        FiguresFault::Memory
    }
}

impl<T: Drop> From<AllocFailed<T>> for FiguresFault {
    fn from(_: AllocFailed<T>) -> Self {
        FiguresFault::Memory
    }
}
