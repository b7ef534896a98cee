//! A log: lines of what has happened.

use crate::event::Event;
use crate::level::Level;
use crate::stamp::Stamp;
use crate::tally::{Entry, Tally, Telling};
use std::alloc::{AllocError, Global};
use std::fs::{File, Files, OpenOptions};
use std::io::Write;
use std::os::unix::fs::{MetadataExt, OpenOptionsExt};
use std::rt::Env;
use std::{env, fmt, fs, io};

/// The word for standard error.
pub const STANDARD_ERROR: &str = "-";

/// Who may read and write a file that is made: its owner alone.
const MODE: u32 = 0o600;

/// Where lines go.
#[derive(Drop)]
enum Sink {
    StandardError,
    /// Standard error that systemd's journal reads.
    Journal,
    File(File),
}

impl Sink {
    /// What a line of this level begins with there.
    fn prefix(&self, level: Level) -> &'static str {
        match self {
            Sink::Journal => level.prefix(),
            Sink::StandardError | Sink::File(_) => "",
        }
    }

    /// Writes as much of a text as is taken at once, in bytes.
    fn put(&mut self, machine: &impl Eprint, text: &str) -> usize {
        match self {
            Sink::StandardError | Sink::Journal => match machine.eprint(text) {
                Ok(()) => text.len(),
                Err(_) => 0,
            },
            Sink::File(file) => file.write(text.as_bytes()).unwrap_or(0),
        }
    }
}

/// How many of something, in a line of the log's own.
#[derive(Clone, Copy)]
struct Lines {
    what: &'static str,
    key: &'static str,
    count: u64,
}

impl fmt::Display for Lines {
    fn fmt<W: fmt::Write>(&self, f: &mut fmt::Formatter<W>) -> fmt::Result {
        let Lines { what, key, count } = *self;
        write!(f, "{what} {key}={count}")
    }
}

/// Lines of what has happened, written once a turn.
#[derive(Drop)]
pub struct Log {
    sink: Sink,
    /// The second of the last line, since 1970.
    second: u64,
    tally: Tally,
    /// Whole lines that aren't written yet.
    lines: String,
    count: u64,
    /// How many lines were lost since the last that was written.
    lost: u64,
    /// What was written last is no whole line.
    is_cut: bool,
    alloc: Global,
}

/// Whether systemd's journal reads standard error: systemd says which stream it has connected, `DEVICE:INODE` (systemd.exec(5)).
fn is_journal<R: Files<File = File> + Env + AllocGlobal>(machine: &R) -> bool {
    let Ok(stream) = env::var(machine, "JOURNAL_STREAM") else {
        return false;
    };
    let Ok(own) = fs::metadata(machine, "/proc/self/fd/2") else {
        return false;
    };
    match format!(in machine.alloc(); "{}:{}", own.dev(), own.ino()) {
        Ok(own) => own == stream,
        Err(_) => false,
    }
}

/// A line: what the sink wants in front of it, `time level text`, and its end.
fn line_of<T: fmt::Display + Drop>(
    alloc: Global,
    prefix: &'static str,
    second: u64,
    level: Level,
    text: T,
) -> Result<String, AllocError> {
    let stamp = Stamp(second);
    format!(in alloc; "{prefix}{stamp} {level} {text}\n")
}

/// Whether so many bytes at the front of lines end within a line.
fn ends_within(lines: &[u8], count: usize) -> bool {
    match count.checked_sub(1) {
        Some(last) => lines.get(last) != Some(&b'\n'),
        None => false,
    }
}

/// How many lines end in these bytes.
fn lines_in(bytes: &[u8]) -> u64 {
    bytes.iter().filter(|byte| **byte == b'\n').count() as u64
}

impl Log {
    /// Opens the file at a path, which is made where it isn't there, to write after what it has; `-` is standard error.
    pub fn open<R: Files<File = File> + Env + AllocGlobal>(
        alloc: Global,
        files: &R,
        path: &str,
    ) -> io::Result<Log> {
        let sink = if path == STANDARD_ERROR && is_journal(files) {
            Sink::Journal
        } else if path == STANDARD_ERROR {
            Sink::StandardError
        } else {
            Sink::File(
                OpenOptions::new()
                    .append(true)
                    .create(true)
                    .mode(MODE)
                    .open(files, path)?,
            )
        };
        Ok(Log {
            sink,
            second: 0,
            tally: Tally::new(alloc),
            lines: String::new(alloc),
            count: 0,
            lost: 0,
            is_cut: false,
            alloc,
        })
    }

    /// Puts a line down, whatever it says.
    pub fn say<T: fmt::Display + Drop>(&mut self, level: Level, text: T) {
        let prefix = self.sink.prefix(level);
        match line_of(self.alloc, prefix, self.second, level, text) {
            Ok(line) => self.put_down(line.as_str()),
            Err(_) => self.lost = self.lost.saturating_add(1),
        }
    }

    /// Puts a whole line after the others. One that there is no memory for is lost.
    fn put_down(&mut self, line: &str) {
        if self.lines.push_str(line).is_ok() {
            self.count = self.count.saturating_add(1);
        } else {
            self.lost = self.lost.saturating_add(1);
        }
    }

    /// Puts down what has happened, or counts it; before it, how often it had happened what it ends.
    pub fn note(&mut self, event: Event) {
        self.say_ended(event);
        if let Some(level) = event.level()
            && self.tally.count(event, self.second) == Telling::Now
        {
            self.say(level, event);
        }
    }

    /// Says how often something has happened.
    fn say_entry(&mut self, entry: Option<Entry>) {
        if let Some(entry) = entry {
            self.say(entry.event.level().unwrap_or(Level::Warn), entry);
        }
    }

    /// Says how often it has happened what an event ends.
    fn say_ended(&mut self, event: Event) {
        if !event.ends_something() {
            return;
        }
        for place in 0..self.tally.len() {
            let entry = self.tally.ended(place, event);
            self.say_entry(entry);
        }
        self.tally.forget(event);
    }

    /// Says what was counted before and may be said now, if another second has begun.
    pub fn at(&mut self, second: u64) {
        if second != self.second {
            self.second = second;
            self.say_due();
        }
    }

    /// The same, once for all of its kind.
    fn say_due(&mut self) {
        for place in 0..self.tally.len() {
            let entry = self.tally.due(place, self.second);
            self.say_entry(entry);
        }
        self.say_skipped();
        self.tally.begin(self.second);
    }

    /// Says all that was counted.
    pub fn say_counted(&mut self) {
        for place in 0..self.tally.len() {
            let entry = self.tally.repeated(place);
            self.say_entry(entry);
        }
        self.say_skipped();
    }

    /// Says how many events were neither said nor counted by their kind.
    fn say_skipped(&mut self) {
        let skipped = self.tally.skipped();
        if skipped > 0 {
            self.say(
                Level::Warn,
                Lines {
                    what: "events_skipped",
                    key: "events",
                    count: skipped,
                },
            );
        }
    }

    /// Ends a line that was cut off, and says how many were lost; whether that could be written.
    fn mend(&mut self, machine: &impl Eprint) -> bool {
        if self.is_cut && self.sink.put(machine, "\n") == 0 {
            return false;
        }
        self.is_cut = false;
        if self.lost == 0 {
            return true;
        }
        let stamp = Stamp(self.second);
        let lines = Lines {
            what: "lines_lost",
            key: "lines",
            count: self.lost,
        };
        let prefix = self.sink.prefix(Level::Warn);
        let Ok(text) = format!(in self.alloc; "{prefix}{stamp} {} {lines}\n", Level::Warn) else {
            return false;
        };
        let written = self.sink.put(machine, text.as_str());
        self.is_cut = 0 < written && written < text.len();
        if written < text.len() {
            return false;
        }
        self.lost = 0;
        true
    }

    /// How many of the lines that are put down couldn't be written.
    fn write_lines(&mut self, machine: &impl Eprint) -> u64 {
        if !self.mend(machine) {
            return self.count;
        }
        let written = self.sink.put(machine, self.lines.as_str());
        self.is_cut = ends_within(self.lines.as_bytes(), written);
        match self.lines.as_bytes().get(written..) {
            Some(rest) => lines_in(rest),
            None => 0,
        }
    }

    /// Writes the lines that are put down. What can't be written is lost, and counted.
    pub fn flush(&mut self, machine: &impl Eprint) {
        if self.lines.is_empty() {
            return;
        }
        let lost = self.write_lines(machine);
        self.lost = self.lost.saturating_add(lost);
        self.lines.clear();
        self.count = 0;
    }
}
