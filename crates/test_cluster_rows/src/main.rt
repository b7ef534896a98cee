//! Stories of worlds and nodes that serve by the program's own applications: reads them from standard input, an event a line, and
//! prints after each line what came of it.
//!
//! A blank line ends a story. The first line of a story is its heading, the second says what it happens to, each of the others is an
//! event. What the file `stdout` expects is taken from the table of a node's step and from what the applications are written down
//! to do, and never from the program.
//!
//! - `world SHOP RULES`: three nodes and all packets that they have sent; `nodes`, `event`, `rules`.
//! - `unstarted SHOP RULES`: the same of four nodes, none of which was ever started.
//! - `node SHOP BYTES`: one of three nodes, over a disk A of these bytes and a blank disk B; `running`.
//! - `fails DISK`: the same over blank disks, once for each call of the disk A or B, which fails; `failing`.
//! - `client TARGET COOKIE`: two nodes, and a client that waits at one of them for the other; `client`.
//!
//! SHOP is `built-in`, `of-a-minute`, `renewing` or `once` (`shop`). Each event happens in the second 1000, with the secret 1, or as the line
//! `at SECOND SECRET` before it says.
#![tactic(auto)]

mod client;
mod clock;
mod digits;
mod disks;
mod event;
mod failing;
mod fault;
mod group;
mod input;
mod nodes;
mod outputs;
mod packets;
mod records;
mod reopening;
mod request;
mod rules;
mod running;
mod said;
mod sessions;
mod shop;
mod story;
mod told;
mod words;
mod worlds;

use std::io;

/// Prints what came of a story.
fn tell(rt: &(impl Print + AllocGlobal), story: &str) -> io::Result<()> {
    let told = story::played(rt.alloc(), story)?;
    println!(rt; "{told}")
}

/// Adds a line to a story; a blank line tells it, and begins another.
fn take(rt: &(impl Print + AllocGlobal), story: &mut String, line: &str) -> io::Result<()> {
    if line.is_empty() {
        tell(rt, story.as_str())?;
        story.clear();
        return Ok(());
    }
    story.push_str(line)?;
    story.push('\n')?;
    Ok(())
}

fn main(rt: HostRuntime) -> io::Result<()> {
    let mut story = String::new(rt.alloc());
    for line in rt.lines(rt.alloc()) {
        take(&rt, &mut story, line?.as_str())?;
    }
    tell(&rt, story.as_str())
}
