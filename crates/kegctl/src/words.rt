//! The words of the command line, by the kit's `clap`.

use crate::fault::Fault;
use crate::gone::Gone;
use crate::offered::program;
use crate::status::Question;
use crate::whose::Claim;
use clap::ArgMatches;
use clap::error::Error;
use std::alloc::Global;
use sv_client::NodeNumber;
use sv_control::Disclosure;
use sv_model::NODE_LIMIT;

/// So many seconds a drain takes at most, if it isn't said; and it is never told to take longer than a day.
const SECONDS: &str = "10";

const DAY: u64 = 86_400;

/// In which form sessions are shown.
#[derive(Clone, Copy, Debug, PartialEq, Eq)]
pub enum Form {
    Text,
    /// A line of JSON each (RFC 8259).
    Json,
}

/// What the program is asked to do.
#[derive(Drop)]
pub enum Order<'a> {
    Check(Check<'a>),
    /// A journal that is to be made.
    Init {
        config: &'a str,
        journal: &'a str,
        node: NodeNumber,
    },
    /// Two descriptors: which sessions of the first the second loses.
    Compare {
        old: &'a str,
        new: &'a str,
    },
    Sessions {
        listing: Listing<'a>,
        disclosure: Disclosure,
        form: Form,
    },
    Records(Listing<'a>),
    Move {
        port: u16,
        /// A session cookie's value, or `HOME.SERIAL`.
        session: &'a str,
        to: NodeNumber,
    },
    Tick {
        port: u16,
    },
    Halt {
        port: u16,
    },
    Status {
        config: &'a str,
        /// The only node that is asked; none for all.
        node: Option<NodeNumber>,
        question: Question,
    },
    Stop {
        config: &'a str,
    },
    Drain(Drain<'a>),
    Gone(Gone<'a>),
    Watch(Watch<'a>),
}

/// A descriptor that is to be looked at.
#[derive(Clone, Copy, Debug, PartialEq, Eq)]
pub struct Check<'a> {
    pub config: &'a str,
    /// A node's program, which is asked whether it has all that is named.
    pub program: Option<&'a str>,
    /// A journal that is looked at, too.
    pub claim: Option<Claim<'a>>,
}

/// A journal of which something is to be listed.
#[derive(Clone, Copy, Debug, PartialEq, Eq)]
pub struct Listing<'a> {
    /// The first of its files.
    pub journal: &'a str,
    /// The descriptor of its node, by which it is said how many keys are known and left; none where that isn't asked for.
    pub keys: Option<&'a str>,
}

/// Figures that are to be shown.
#[derive(Drop)]
pub struct Watch<'a> {
    pub config: &'a str,
    /// The files that nodes write, a column of the table each.
    pub files: Vec<&'a str>,
    /// So many tables; none where it wasn't said.
    pub count: Option<u64>,
}

/// A node that is to be taken out of use.
#[derive(Clone, Copy, Debug, PartialEq, Eq)]
pub struct Drain<'a> {
    pub config: &'a str,
    pub node: NodeNumber,
    pub journal: &'a str,
    /// The nodes that take its sessions, numbers with commas between; none for all others.
    pub to: Option<&'a str>,
    /// So long it may take.
    pub seconds: u64,
    /// It is halted once it has none left.
    pub halts: bool,
}

/// A word that a command has, as clap has seen to it.
fn text<'a>(matches: &ArgMatches<'a>, id: &str) -> &'a str {
    matches.get_str(id).unwrap_or("")
}

fn port(matches: &ArgMatches<'_>) -> Result<u16, Fault> {
    match text(matches, "PORT").parse::<u16>() {
        Ok(port) if port > 0 => Ok(port),
        _ => Err(Fault::Arguments("PORT is a number from 1 to 65535")),
    }
}

/// The number of a node.
pub fn node_of(text: &str) -> Result<NodeNumber, Fault> {
    if let Ok(value) = text.parse::<u8>() {
        if value < NODE_LIMIT {
            return Ok(NodeNumber { value });
        }
    }
    Err(Fault::Arguments("a node is a number from 0 to 7"))
}

/// How long a drain may take, in seconds.
fn seconds(matches: &ArgMatches<'_>) -> Result<u64, Fault> {
    match matches.get_str("seconds").unwrap_or(SECONDS).parse::<u64>() {
        Ok(seconds) if seconds > 0 && seconds <= DAY => Ok(seconds),
        _ => Err(Fault::Arguments("--seconds is a number from 1 to 86400")),
    }
}

fn drain_of<'a>(matches: &ArgMatches<'a>) -> Result<Order<'a>, Fault> {
    Ok(Order::Drain(Drain {
        config: text(matches, "CONFIG"),
        node: node_of(text(matches, "NODE"))?,
        journal: text(matches, "JOURNAL"),
        to: matches.get_str("to"),
        seconds: seconds(matches)?,
        halts: matches.get_flag("halt"),
    }))
}

/// How many tables are to be shown.
fn count(matches: &ArgMatches<'_>) -> Result<Option<u64>, Fault> {
    let Some(text) = matches.get_str("count") else {
        return Ok(None);
    };
    match text.parse::<u64>() {
        Ok(count) if count > 0 => Ok(Some(count)),
        _ => Err(Fault::Arguments("--count is a number above 0")),
    }
}

/// The words that a command has in a list.
fn texts<'a>(alloc: Global, matches: &ArgMatches<'a>, id: &str) -> Result<Vec<&'a str>, Fault> {
    let mut all = Vec::new(alloc);
    if let Some(words) = matches.get_strs(id) {
        for word in words {
            all.push(*word)?;
        }
    }
    Ok(all)
}

fn watch_of<'a>(alloc: Global, matches: &ArgMatches<'a>) -> Result<Order<'a>, Fault> {
    let count = count(matches)?;
    match texts(alloc, matches, "METRICS") {
        Ok(files) => Ok(Order::Watch(Watch {
            config: text(matches, "CONFIG"),
            files,
            count,
        })),
        Err(fault) => Err(fault),
    }
}

fn gone_of<'a>(alloc: Global, matches: &ArgMatches<'a>) -> Result<Order<'a>, Fault> {
    let node = node_of(text(matches, "NODE"))?;
    match texts(alloc, matches, "OTHER") {
        Ok(others) => Ok(Order::Gone(Gone {
            config: text(matches, "CONFIG"),
            journal: text(matches, "JOURNAL"),
            node,
            others,
            makes: matches.get_flag("make"),
        })),
        Err(fault) => Err(fault),
    }
}

fn listing_of<'a>(matches: &ArgMatches<'a>) -> Listing<'a> {
    Listing {
        journal: text(matches, "JOURNAL"),
        keys: matches.get_str("keys"),
    }
}

fn sessions_of<'a>(matches: &ArgMatches<'a>) -> Order<'a> {
    Order::Sessions {
        listing: listing_of(matches),
        disclosure: if matches.get_flag("values") {
            Disclosure::Values
        } else {
            Disclosure::Sizes
        },
        form: if matches.get_flag("json") {
            Form::Json
        } else {
            Form::Text
        },
    }
}

/// The journal that is to be looked at, and the node whose it is said to be.
fn claim<'a>(matches: &ArgMatches<'a>) -> Result<Option<Claim<'a>>, Fault> {
    match matches.get_strs("journal") {
        Some([journal, node]) => Ok(Some(Claim {
            journal,
            node: node_of(node)?,
        })),
        _ => Ok(None),
    }
}

fn check_of<'a>(matches: &ArgMatches<'a>) -> Result<Order<'a>, Fault> {
    let config = text(matches, "CONFIG");
    match matches.get_str("against") {
        Some(old) => Ok(Order::Compare { old, new: config }),
        None => Ok(Order::Check(Check {
            config,
            program: matches.get_str("program"),
            claim: claim(matches)?,
        })),
    }
}

/// What a command on files asks for.
fn order_on_files<'a>(name: &str, matches: &ArgMatches<'a>) -> Order<'a> {
    match name {
        "records" => Order::Records(listing_of(matches)),
        _ => sessions_of(matches),
    }
}

fn init_of<'a>(matches: &ArgMatches<'a>) -> Result<Order<'a>, Fault> {
    Ok(Order::Init {
        config: text(matches, "CONFIG"),
        journal: text(matches, "JOURNAL"),
        node: node_of(text(matches, "NODE"))?,
    })
}

fn status_of<'a>(matches: &ArgMatches<'a>) -> Result<Order<'a>, Fault> {
    let node = match matches.get_str("NODE") {
        Some(node) => Some(node_of(node)?),
        None => None,
    };
    Ok(Order::Status {
        config: text(matches, "CONFIG"),
        node,
        question: if matches.get_flag("greet") {
            Question::WhatItSays
        } else {
            Question::WhetherItAnswers
        },
    })
}

/// What a command on one node asks for.
fn order_on_node<'a>(name: &str, matches: &ArgMatches<'a>) -> Result<Order<'a>, Fault> {
    let port = port(matches)?;
    match name {
        "tick" => Ok(Order::Tick { port }),
        "halt" => Ok(Order::Halt { port }),
        _ => Ok(Order::Move {
            port,
            session: text(matches, "SESSION"),
            to: node_of(text(matches, "TO"))?,
        }),
    }
}

/// What a command and its words ask for.
fn order_of<'a>(alloc: Global, name: &str, matches: &ArgMatches<'a>) -> Result<Order<'a>, Fault> {
    match name {
        "check" => check_of(matches),
        "init" => init_of(matches),
        "sessions" | "records" => Ok(order_on_files(name, matches)),
        "status" => status_of(matches),
        "stop" => Ok(Order::Stop {
            config: text(matches, "CONFIG"),
        }),
        "drain" => drain_of(matches),
        "gone" => gone_of(alloc, matches),
        "watch" => watch_of(alloc, matches),
        _ => order_on_node(name, matches),
    }
}

/// What `clap` makes of the words: the order, or what it has to say of them.
#[derive(Drop)]
pub enum Asked<'a> {
    Order(Order<'a>),
    /// The help that was asked for, or why the words are none of the program's.
    Said(Error),
}

/// What the words ask for, the program's name among them.
pub fn read_words(alloc: Global, words: &[String]) -> Result<Asked<'_>, Fault> {
    let matches = match program(alloc)?.try_get_matches_from(words) {
        Ok(matches) => matches,
        Err(said) => return Ok(Asked::Said(said)),
    };
    match matches.subcommand() {
        Some((name, inner)) => Ok(Asked::Order(order_of(alloc, name, inner)?)),
        None => Err(Fault::Arguments("no command")),
    }
}
