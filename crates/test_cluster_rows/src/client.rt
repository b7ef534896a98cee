//! Two nodes over disks, and a client that asks node 1 for a session of node 0: it waits, node 0 says that there is no such session,
//! and it is answered. What the nodes put out is told, and what they are given is spelled here.

ghost use Rattle.std.specs.Prelude.{◌<◌, IfOk};
ghost use Rattle.sv_model.specs.Ranges.{IsPacket};

use crate::clock;
use crate::fault::RowFault;
use crate::outputs::push_output;
use crate::said::next_part;
use crate::shop::{Shop, shop};
use crate::words::word;
use crate::worlds::push_row;
use std::alloc::{AllocError, Global};
use sv_connection::{Connection, Outcome};
use sv_journal::MemoryDisk;
use sv_model::{Input, Key, Output, Packet, Setting, Site};
use sv_node::Node;
use sv_solo::{Served, serve_next};

/// The number of the client's request.
const TOKEN: u64 = 7;

/// The first session of node 0.
const KEY: Key = Key { home: 0, serial: 1 };

/// Node 1 asks for it, by the first want of its first start.
const WANT: Packet = Packet::Want {
    from: 1,
    to: 0,
    key: KEY,
    boot: 1,
    want: 1,
};

/// Node 0 says that there is no such session.
const NO: Packet = Packet::No {
    from: 0,
    to: 1,
    key: KEY,
    boot: 1,
    want: 1,
};

fn node(alloc: Global, number: u8) -> Result<Node<Shop, MemoryDisk>, RowFault>
    requires { number < 2 }
    ensures { IfOk result (λ n. ⟦<Node<Shop, MemoryDisk> as Site>⟧.site_valid n) }
{
    let setting = Setting::of(number, 2, 30);
    let shop = shop(alloc, "built-in")?;
    match Node::open(
        alloc,
        shop,
        MemoryDisk::new(alloc),
        MemoryDisk::new(alloc),
        setting,
    ) {
        Ok(node) => Ok(node),
        Err(_) => Err(RowFault::Start),
    }
}

/// Bytes as a text: a line feed is a bar, and a carriage return nothing.
fn shown(alloc: Global, bytes: &[u8]) -> Result<String, AllocError> {
    let mut text = String::new(alloc);
    for byte in bytes {
        match *byte {
            b'\n' => text.push('|')?,
            b'\r' => {}
            byte => text.push(char::from(byte))?,
        }
    }
    Ok(text)
}

/// Tells what was put out.
fn tell(told: &mut String, alloc: Global, what: &str, outputs: &[Output]) -> Result<(), RowFault> {
    let mut text = String::new(alloc);
    for output in outputs {
        next_part(&mut text)?;
        push_output(&mut text, output)?;
    }
    Ok(push_row(told, what, text.as_str())?)
}

/// Tells how a call of the connection ended, and after it what has been written.
fn tell_written(
    told: &mut String,
    alloc: Global,
    what: &str,
    outcome: Outcome,
    written: &[u8],
) -> Result<(), RowFault> {
    let said = format!(in alloc; "{outcome:?} {}", shown(alloc, written)?)?;
    Ok(push_row(told, what, said.trim_end())?)
}

/// A packet comes to a node: what it puts out.
fn given<S: Site>(site: &mut S, packet: Packet) -> Result<Vec<Output>, RowFault>
    requires site { S.site_valid site.old }
    requires packet { IsPacket packet }
    ensures { S.site_valid site.new }
{
    match site.step(clock::start(), Input::Packet(packet)) {
        Ok(outputs) => Ok(outputs),
        Err(_) => Err(RowFault::Start),
    }
}

/// The client's connection is given the answer.
fn answered(
    told: &mut String,
    alloc: Global,
    connection: &mut Connection,
    outputs: &[Output],
) -> Result<(), RowFault> {
    let [
        Output::Answer {
            token: TOKEN,
            response,
        },
    ] = outputs
    else {
        return Err(RowFault::Start);
    };
    let mut written = Vec::new(alloc);
    let outcome = connection.answer(&mut written, response, clock::start().now);
    tell_written(
        told,
        alloc,
        "the client is answered",
        outcome,
        written.as_slice(),
    )
}

/// The client sends a GET with a cookie: `TARGET COOKIE`. Its connection waits.
fn asks<S: Site>(
    told: &mut String,
    alloc: Global,
    site: &mut S,
    words: &str,
) -> Result<Connection, RowFault>
    requires { S.site_valid site.old }
    ensures { S.site_valid site.new }
{
    let (target, cookie) = word(words);
    let request = format!(in alloc;
        "GET {target} HTTP/1.1\r\nHost: localhost\r\nCookie: JSESSIONID={cookie}\r\n\r\n"
    )?;
    let mut connection = Connection::new(alloc, false);
    let mut written = Vec::new(alloc);
    let mut reader = request.as_bytes();
    let served = serve_next(
        alloc,
        &mut connection,
        &mut reader,
        &mut written,
        site,
        clock::start(),
        TOKEN,
    );
    tell_asked(told, alloc, &served, written.as_slice())?;
    Ok(connection)
}

/// Tells how the client's call ended, and what its node put out.
fn tell_asked(
    told: &mut String,
    alloc: Global,
    served: &Served,
    written: &[u8],
) -> Result<(), RowFault> {
    tell_written(told, alloc, "the client asks", served.outcome, written)?;
    tell(told, alloc, "node 1", served.outputs.as_slice())
}

/// A packet comes to a node: what it puts out is told.
fn hears<S: Site>(
    told: &mut String,
    alloc: Global,
    site: &mut S,
    name: &str,
    packet: Packet,
) -> Result<Vec<Output>, RowFault>
    requires site { S.site_valid site.old }
    requires packet { IsPacket packet }
    ensures { S.site_valid site.new }
{
    let outputs = given(site, packet)?;
    tell(told, alloc, name, outputs.as_slice())?;
    Ok(outputs)
}

/// Node 0 hears of the want.
fn home(told: &mut String, alloc: Global) -> Result<(), RowFault> {
    let mut home = node(alloc, 0)?;
    hears(told, alloc, &mut home, "node 0", WANT)?;
    Ok(())
}

/// Node 0 is asked, node 1 is told what that says, and the client is answered.
fn ends<S: Site>(
    told: &mut String,
    alloc: Global,
    site: &mut S,
    connection: &mut Connection,
) -> Result<(), RowFault>
    requires { S.site_valid site.old }
{
    home(told, alloc)?;
    let outputs = hears(told, alloc, site, "node 1", NO)?;
    answered(told, alloc, connection, outputs.as_slice())
}

/// The client's request waits at node 1, and is answered.
fn waits<S: Site>(
    told: &mut String,
    alloc: Global,
    site: &mut S,
    words: &str,
) -> Result<(), RowFault>
    requires { S.site_valid site.old }
{
    let mut connection = asks(told, alloc, site, words)?;
    ends(told, alloc, site, &mut connection)
}

/// A client sends a GET with a cookie to node 1, waits, and is answered.
pub fn play(alloc: Global, words: &str, told: &mut String) -> Result<(), RowFault> {
    let mut asked = node(alloc, 1)?;
    waits(told, alloc, &mut asked, words)
}
