//! What is known of one node's figures.

use crate::fault::FiguresFault;
use crate::figures::Figures;

/// What a node's file said last, and before that.
pub struct Column<'a> {
    pub path: &'a str,
    pub latest: Option<Figures>,
    pub before: Option<Figures>,
    /// Why the file wasn't read, where it wasn't the last time.
    pub fault: Option<FiguresFault>,
}

/// By hand, so that letting one go is one step.
impl Drop for Column<'_> {
    fn drop(self) {
        let Column {
            path: _,
            latest: _,
            before: _,
            fault: _,
        } = self;
    }
}

impl<'a> Column<'a> {
    /// The file at a path, before it is read.
    pub fn new(path: &'a str) -> Column<'a> {
        Column {
            path,
            latest: None,
            before: None,
            fault: None,
        }
    }

    /// The figures stand there already.
    fn has(&self, figures: &Figures) -> bool {
        match &self.latest {
            Some(latest) => latest.seconds == figures.seconds && latest.node == figures.node,
            None => false,
        }
    }

    /// The file was read once more.
    pub fn look(&mut self, found: Result<Figures, FiguresFault>) {
        match found {
            Ok(figures) => self.take(figures),
            Err(fault) => self.fault = Some(fault),
        }
    }

    fn take(&mut self, figures: Figures) {
        self.fault = None;
        if !self.has(&figures) {
            self.before = self.latest.replace(figures);
        }
    }

    /// How many seconds lie between the two.
    pub fn passed(&self) -> Option<u64> {
        let now = self.latest.as_ref()?.seconds;
        now.checked_sub(self.before.as_ref()?.seconds)
    }
}
