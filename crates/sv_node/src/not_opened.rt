//! A node that was not opened.

use crate::fault::OpenFault;
use std::error::Error;
use std::fmt;

/// A node that was not opened, and why: its engine and its disks are handed back.
#[derive(Drop)]
pub struct NotOpened<E, D> {
    pub fault: OpenFault,
    pub engine: E,
    pub a: D,
    pub b: D,
}

impl<E, D> fmt::Debug for NotOpened<E, D> {
    fn fmt<W: fmt::Write>(&self, f: &mut fmt::Formatter<W>) -> fmt::Result {
        let fault = self.fault;
        write!(f, "NotOpened({fault:?})")
    }
}

impl<E, D> fmt::Display for NotOpened<E, D> {
    fn fmt<W: fmt::Write>(&self, f: &mut fmt::Formatter<W>) -> fmt::Result {
        let fault = self.fault;
        write!(f, "{fault}")
    }
}

impl<E: Drop, D: Drop> Error for NotOpened<E, D> {}
