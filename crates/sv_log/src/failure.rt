//! Why a node ends before it is told to, in a line of the log.

use crate::quoted::Quoted;
use std::{fmt, io};

/// Where a fault was found.
#[derive(Clone, Copy)]
pub enum Site<'a> {
    /// In a file, or in what was to be one.
    Path(&'a str),
    /// At a port of the loopback address.
    Port(u16),
    /// Nowhere in particular.
    None,
}

impl fmt::Display for Site<'_> {
    fn fmt<W: fmt::Write>(&self, f: &mut fmt::Formatter<W>) -> fmt::Result {
        match *self {
            Site::Path(path) => {
                let path = Quoted(path);
                write!(f, " path={path}")
            }
            Site::Port(port) => write!(f, " port={port}"),
            Site::None => Ok(()),
        }
    }
}

/// What the system said, where it refused something.
#[derive(Clone, Copy)]
struct SystemSaid<'a>(Option<&'a io::Error>);

impl fmt::Display for SystemSaid<'_> {
    fn fmt<W: fmt::Write>(&self, f: &mut fmt::Formatter<W>) -> fmt::Result {
        let Some(error) = self.0 else {
            return Ok(());
        };
        if let Some(errno) = error.raw_os_error() {
            write!(f, " errno={errno}")?;
        }
        write!(f, " error=\"{error}\"")
    }
}

/// Why a node ends before it is told to.
#[derive(Clone, Copy)]
pub struct Failure<'a> {
    /// Its name, which the program prints.
    pub fault: &'a str,
    /// The exit status.
    pub status: u8,
    pub site: Site<'a>,
    /// What the system said.
    pub error: Option<&'a io::Error>,
}

impl fmt::Display for Failure<'_> {
    fn fmt<W: fmt::Write>(&self, f: &mut fmt::Formatter<W>) -> fmt::Result {
        let (fault, status, site) = (self.fault, self.status, self.site);
        let said = SystemSaid(self.error);
        write!(f, "failed fault={fault} status={status}{site}{said}")
    }
}
