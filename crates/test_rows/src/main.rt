//! Rows of tests: reads a table from standard input, a row a line, and prints of each row its name and what came of it.
//!
//! A line is a kind, a blank, the row's name and its parts, with a bar `|` before each part; a row without a bar is the one
//! part that it is named for. A line that begins with `#` is a heading, and printed as it stands. In a part, `\r`, `\n`,
//! `\t`, `\0`, `\\` and `\x` with two hexadecimal digits stand for a byte, and so they do in what is printed. Of `sessions`,
//! `servlets` and `dispatches` only the value of a reply's field is read so, and only bodies and a session's values are printed so;
//! of `authors` only bodies are read and printed so. What the file `stdout` expects is taken from the standards or reasoned out, and never from the program.
//!
//! Each module says what the parts of its kinds are:
//!
//! - `web`, messages: `stream`, `body`, `long`, `length`, `fields` and `response`;
//! - `web`, targets: `path`, `target`, `method`, `raw-path`, `params`, `both` and `form`;
//! - `web`, cookies: `cookies`, `session`, `asked` and `session-text`;
//! - `application`, descriptors: `config`, `counted`, `checked`, `cluster`, `contexts`, `deployed-context`, `deployed-servlet` and
//!   `deployed-filters`;
//! - `application`, paths: `context`, `below`, `servlet`, `pattern`, `long-pattern`, `filters` and `dispatcher`;
//! - `record`: `record`, `old-record`, `packet`, `old-packet`, `frame`, `old-frame`, `attributes`, `changed`, `count`,
//!   `journal-keys` and `journal-keys-json`, whose bytes are in hexadecimal;
//! - `watched`, figures: `figures`, `cut-figures`, `figure`, `rate`, `known-keys`, `table` and `screen`;
//! - `sessions`, whose parts are calls: `edit`, `expired`, `joined` and `session-fault`;
//! - `servlets`, likewise: `reply`, `reply-fault`, `request-attributes`, `init`, `lives` and `filter`;
//! - `dispatches`, whose servlet and filter do as a row of a table says, with a proved meaning: `chain`, `included`, `carried`, `filtered`,
//!   `nested`, `looped`, `page` and `shown`;
//! - `authors`, what they share: `u8`, `u16`, `u64`, `post`, `parameter`, `parameter-or`, `escaped`, `written`, `error`, `head`,
//!   `own-path`, `value`, `has-session`, `text`, `number`, `status`, `echo` and `closed`;
//! - `authors`, cookies and tokens: `cookie`, `setting`, `set-cookie`, `token`, `now`, `csrf` and `csrf-token`;
//! - `authors`, whole answers: `methods`, `json-put`, `page-of`, `send-to`, `json`, `json-error`, `part` and `file`.
#![tactic(auto)]

mod answer;
mod application;
mod authors;
mod digits;
mod dispatches;
mod escape;
mod fault;
mod kinds;
mod listed;
mod record;
mod repeat;
mod row;
mod scripted;
mod servlets;
mod sessions;
mod staged;
mod watched;
mod web;

use std::io;

fn main(rt: HostRuntime) -> io::Result<()> {
    for line in rt.lines(rt.alloc()) {
        let text = answer::answer(rt.alloc(), line?.as_str())?;
        println!(rt; "{text}")?;
    }
    Ok(())
}
