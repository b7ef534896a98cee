//! Greetings: what nodes say to each other of themselves, beside the packets of the sessions.

ghost use Rattle.std.specs.Prelude.{◌≡◌, ◌++◌, ℕ, List, length, take, OnOk, OnErr, IfOk, Ok};
ghost use Rattle.std.specs.Int.{w32, to_be_bytes};
ghost use Rattle.sv_record.specs.Reading.{Gives, bytes_at};
ghost use Rattle.sv_record.specs.declared.greeting.Greeting.{Greeting};
ghost use Rattle.sv_record.specs.Greeting.{body, body_of, counts, ends, errand, greeting, greeting_of, head, told, IsGreeting};

use crate::fault::RecordFault;
use crate::number::{
    read_byte, read_bytes, read_node, read_u32, read_u64, write_byte, write_node, write_u64,
};
use std::alloc::AllocError;

/// The first byte of a greeting.
pub const GREETING: u8 = 0xe3;

/// So many bytes stand after the number that says so, which is written as in a frame.
const PAYLOAD_LEN: u32 = 95;

const VERSION: u8 = 1;

/// The bytes of a greeting: all have as many.
pub const GREETING_LEN: usize = 100;

/// So many bytes say which contexts an application has.
pub const CONTEXTS_LEN: usize = 64;

/// What a greeting is for.
#[derive(Clone, Copy, Debug, PartialEq, Eq)]
pub enum Errand {
    /// A node that isn't ready yet asks another.
    Opening,
    /// A node that serves says it to another.
    Serving,
    /// It is the answer to who has asked.
    Answer,
    /// Somebody who is no node asks.
    Look,
}

/// What a node says of itself to another.
#[derive(Clone, Copy, Debug, PartialEq, Eq)]
pub struct Greeting {
    pub errand: Errand,
    pub from: u8,
    pub to: u8,
    /// Of how many nodes it was told.
    pub nodes: u8,
    /// It has sessions, or may make some, that are of nodes below this number, and of no others.
    pub homes: u8,
    /// The same of it and of the others together, by what they have said to it of late.
    pub all_homes: u8,
    /// Which start of it this is, counted from 1.
    pub start: u64,
    /// The latest start of the other node that it has heard of; 0 for none.
    pub heard: u64,
    /// What its machine's clock shows, in seconds since 1970.
    pub clock: u64,
    /// Four bytes for the path of each of its contexts, in their order; zeros for those that it hasn't.
    pub contexts: [u8; CONTEXTS_LEN],
}

#[tactic(auto, unfolding(crate::specs::Greeting::errand))]
fn read_errand(bytes: &[u8]) -> Result<(Errand, &[u8]), RecordFault>
    ensures { Gives (λ x. (x.0, x.1.now)) result (errand.read bytes.now) }
{
    let (byte, rest) = read_byte(bytes)?;
    match byte {
        0 => Ok((Errand::Opening, rest)),
        1 => Ok((Errand::Serving, rest)),
        2 => Ok((Errand::Answer, rest)),
        3 => Ok((Errand::Look, rest)),
        _ => Err(RecordFault::BadField),
    }
}

#[tactic(auto, unfolding(crate::specs::Greeting::errand))]
fn write_errand(what: Errand, out: &mut Vec<u8>) -> Result<(), AllocError>
    ensures ok { OnOk result (out.new.items ≡ out.old.items ++ errand.text what) }
    ensures err { OnErr result (take (length out.old.items) out.new.items ≡ out.old.items) }
    ensures fits { errand.Fits what }
{
    let byte: u8 = match what {
        Errand::Opening => 0,
        Errand::Serving => 1,
        Errand::Answer => 2,
        Errand::Look => 3,
    };
    write_byte(byte, out)
}

/// What all greetings begin with.
#[tactic(auto, unfolding(crate::specs::Greeting::head))]
fn read_head(bytes: &[u8]) -> Result<((), &[u8]), RecordFault>
    ensures { Gives (λ x. (x.0, x.1.now)) result (head.read bytes.now) }
{
    let (first, rest) = read_byte(bytes)?;
    if first != GREETING {
        return Err(RecordFault::BadField);
    }
    let (len, rest) = read_u32(rest)?;
    if len != PAYLOAD_LEN {
        return Err(RecordFault::BadField);
    }
    let (version, rest) = read_byte(rest)?;
    if version != VERSION {
        return Err(RecordFault::BadField);
    }
    Ok(((), rest))
}

fn write_len(out: &mut Vec<u8>) -> Result<(), AllocError>
    ensures ok { OnOk result (out.new.items ≡ out.old.items ++ to_be_bytes w32 PAYLOAD_LEN) }
    ensures err { OnErr result (take (length out.old.items) out.new.items ≡ out.old.items) }
{
    out.extend_from_slice(&PAYLOAD_LEN.to_be_bytes())
}

#[tactic(auto, unfolding(crate::specs::Greeting::head))]
fn write_head(out: &mut Vec<u8>) -> Result<(), AllocError>
    ensures ok { OnOk result (out.new.items ≡ out.old.items ++ head.text tt) }
    ensures err { OnErr result (take (length out.old.items) out.new.items ≡ out.old.items) }
    ensures fits { head.Fits tt }
{
    write_byte(GREETING, out)?;
    write_len(out)?;
    write_byte(VERSION, out)
}

fn read_contexts(bytes: &[u8]) -> Result<([u8; CONTEXTS_LEN], &[u8]), RecordFault>
    ensures { Gives (λ x. (x.0, x.1.now)) result (bytes_at 64 bytes.now) }
{
    let (front, rest) = read_bytes(bytes, CONTEXTS_LEN)?;
    let mut contexts = [0; CONTEXTS_LEN];
    contexts.copy_from_slice(front);
    Ok((contexts, rest))
}

#[tactic(auto, unfolding(crate::specs::Greeting::greeting))]
fn read_fields(bytes: &[u8]) -> Result<(Greeting, &[u8]), RecordFault>
    ensures { Gives (λ x. (x.0, x.1.now)) result (greeting.read bytes.now) }
{
    let ((), rest) = read_head(bytes)?;
    let (errand, rest) = read_errand(rest)?;
    let (from, rest) = read_node(rest)?;
    let (to, rest) = read_node(rest)?;
    let (nodes, rest) = read_byte(rest)?;
    let (homes, rest) = read_byte(rest)?;
    let (all_homes, rest) = read_byte(rest)?;
    let (start, rest) = read_u64(rest)?;
    let (heard, rest) = read_u64(rest)?;
    let (clock, rest) = read_u64(rest)?;
    let (contexts, rest) = read_contexts(rest)?;
    let read = Greeting {
        errand,
        from,
        to,
        nodes,
        homes,
        all_homes,
        start,
        heard,
        clock,
        contexts,
    };
    Ok((read, rest))
}

/// Reads a greeting, which is all of the bytes.
pub fn read_greeting(bytes: &[u8]) -> Result<Greeting, RecordFault>
    // What was written is read.
    ensures only { (g : Greeting) → greeting.Fits g → bytes.now ≡ greeting.text g → Gives (λ g. g) result (Ok g) }
    // What is read may be written.
    ensures within { IfOk result IsGreeting }
    ensures exact { Gives (λ g. g) result (greeting_of bytes.now) }
{
    read_whole(bytes)
}

fn read_whole(bytes: &[u8]) -> Result<Greeting, RecordFault>
    ensures { Gives (λ g. g) result (greeting_of bytes.now) }
{
    let (read, rest) = read_fields(bytes)?;
    if !rest.is_empty() {
        return Err(RecordFault::BadField);
    }
    Ok(read)
}

fn write_ends(said: &Greeting, out: &mut Vec<u8>) -> Result<(), AllocError>
    requires { IsGreeting said.now }
    ensures ok { OnOk result (out.new.items ≡ out.old.items ++ ends.text (said.now.from, said.now.to)) }
    ensures err { OnErr result (take (length out.old.items) out.new.items ≡ out.old.items) }
    ensures fits { OnOk result (ends.Fits (said.now.from, said.now.to)) }
{
    write_node(said.from, out)?;
    write_node(said.to, out)
}

fn write_told(said: &Greeting, out: &mut Vec<u8>) -> Result<(), AllocError>
    ensures ok { OnOk result (out.new.items ≡ out.old.items ++ told.text (said.now.nodes, (said.now.homes, said.now.all_homes))) }
    ensures err { OnErr result (take (length out.old.items) out.new.items ≡ out.old.items) }
    ensures fits { OnOk result (told.Fits (said.now.nodes, (said.now.homes, said.now.all_homes))) }
{
    write_byte(said.nodes, out)?;
    write_byte(said.homes, out)?;
    write_byte(said.all_homes, out)
}

fn write_counts(said: &Greeting, out: &mut Vec<u8>) -> Result<(), AllocError>
    ensures ok { OnOk result (out.new.items ≡ out.old.items ++ counts.text (said.now.start, (said.now.heard, said.now.clock))) }
    ensures err { OnErr result (take (length out.old.items) out.new.items ≡ out.old.items) }
    ensures fits { OnOk result (counts.Fits (said.now.start, (said.now.heard, said.now.clock))) }
{
    write_u64(said.start, out)?;
    write_u64(said.heard, out)?;
    write_u64(said.clock, out)
}

fn write_contexts(said: &Greeting, out: &mut Vec<u8>) -> Result<(), AllocError>
    ensures ok { OnOk result (out.new.items ≡ out.old.items ++ said.now.contexts) }
    ensures err { OnErr result (take (length out.old.items) out.new.items ≡ out.old.items) }
    ensures fits { OnOk result (length said.now.contexts ≡ 64) }
{
    out.extend_from_slice(&said.contexts)
}

fn write_body(said: &Greeting, out: &mut Vec<u8>) -> Result<(), AllocError>
    requires { IsGreeting said.now }
    ensures ok { OnOk result (out.new.items ≡ out.old.items ++ body.text (body_of said.now)) }
    ensures fits { OnOk result (body.Fits (body_of said.now)) }
    ensures err { OnErr result (take (length out.old.items) out.new.items ≡ out.old.items) }
{
    write_ends(said, out)?;
    write_told(said, out)?;
    write_counts(said, out)?;
    write_contexts(said, out)
}

#[tactic(auto, unfolding(crate::specs::Greeting::greeting))]
fn write_fields(said: &Greeting, out: &mut Vec<u8>) -> Result<(), AllocError>
    requires { IsGreeting said.now }
    ensures ok { OnOk result (out.new.items ≡ out.old.items ++ greeting.text said.now) }
    ensures fits { OnOk result (greeting.Fits said.now) }
    ensures err { OnErr result (take (length out.old.items) out.new.items ≡ out.old.items) }
{
    write_head(out)?;
    write_errand(said.errand, out)?;
    write_body(said, out)
}

/// Adds a greeting to the bytes. Where memory is refused they are as before. Its numbers of nodes are below 8.
pub fn write_greeting(said: &Greeting, out: &mut Vec<u8>) -> Result<(), AllocError>
    requires { IsGreeting said.now }
    ensures ok { OnOk result (out.new.items ≡ out.old.items ++ greeting.text said.now) }
    ensures fits { OnOk result (greeting.Fits said.now) }
    ensures err { OnErr result (out.new.items ≡ out.old.items) }
{
    let len = out.len();
    let written = write_fields(said, out);
    if written.is_err() {
        out.truncate(len);
    }
    written
}
