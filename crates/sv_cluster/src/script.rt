//! A script: which lines it has, and what each of them asks for.

ghost use Rattle.std.specs.Prelude.{◌≡◌, ◌≢◌, ◌++◌, ◌∷◌, [], map, IfOk, IfErr, IfSome, IfNone, IsTrue, OnOk};
ghost use Rattle.std.specs.List.{list_any, slice_split};
ghost use Rattle.sv_cluster.specs.Script.{ask_of, is_fault, is_line_feed, is_space, line_data, move_of, number_at, number_of};
ghost use Rattle.sv_cluster.specs.Script.{of_three, of_two, order_in, orders_of, reading, readings, script_in};
ghost use Rattle.sv_cluster.specs.declared.script.ScriptFault.TheVariants.{BadLine, Memory};

use std::alloc::{AllocError, AllocFailed, Global};
use sv_client::NodeNumber;
use thiserror::Error;

/// What a line asks for.
#[derive(Clone, Copy, Debug, PartialEq, Eq)]
pub enum Act<'a> {
    /// `start N`: the node's process is started.
    Start(NodeNumber),
    /// `ask N PATH`: the node is asked for a path, with the cookie of the session.
    Ask { node: NodeNumber, path: &'a str },
    /// `move N TO`: the node hands the session over to another.
    Move { node: NodeNumber, to: NodeNumber },
    /// `tick N`: the node looks at the time.
    Tick(NodeNumber),
    /// `halt N`: the node stops.
    Halt(NodeNumber),
    /// `kill N`: the node's process is ended by `kill -9`.
    Kill(NodeNumber),
}

/// A line of a script.
#[derive(Clone, Copy, Debug, PartialEq, Eq)]
pub struct Line<'a> {
    pub text: &'a str,
    pub act: Act<'a>,
}

/// Why a script isn't read.
#[derive(Clone, Copy, Debug, PartialEq, Eq, Error)]
pub enum ScriptFault {
    #[error("a line asks for nothing")]
    BadLine,
    #[error("memory was refused")]
    Memory,
}

impl From<AllocError> for ScriptFault {
    ghost from_gives = { λ _ fault. fault ≡ Memory };

    fn from(_: AllocError) -> Self {
        ScriptFault::Memory
    }
}

impl<T: Drop> From<AllocFailed<T>> for ScriptFault {
    ghost from_gives = { λ _ fault. fault ≡ Memory };

    fn from(_: AllocFailed<T>) -> Self {
        ScriptFault::Memory
    }
}

/// The number of a node in decimal.
fn read_number(word: &str) -> Option<NodeNumber>
    ensures { number_of result ≡ number_at word.now }
{
    match word.as_bytes() {
        [digit @ b'0'..=b'7'] => Some(NodeNumber {
            value: *digit - b'0',
        }),
        _ => None,
    }
}

/// `start N`, `tick N`, `halt N`, `kill N`.
fn read_two<'a>(verb: &str, node: &str) -> Option<Act<'a>>
    ensures { orders_of result ≡ of_two verb.now (number_at node.now) }
{
    let node = read_number(node)?;
    match verb {
        "start" => Some(Act::Start(node)),
        "tick" => Some(Act::Tick(node)),
        "halt" => Some(Act::Halt(node)),
        "kill" => Some(Act::Kill(node)),
        _ => None,
    }
}

/// `ask N PATH`.
fn read_ask<'a>(node: &str, path: &'a str) -> Option<Act<'a>>
    ensures { orders_of result ≡ ask_of (number_at node.now) path.now }
{
    let node = read_number(node)?;
    if path.is_empty() {
        return None;
    }
    Some(Act::Ask { node, path })
}

/// `move N TO`.
fn read_move<'a>(node: &str, to: &str) -> Option<Act<'a>>
    ensures { orders_of result ≡ move_of (number_at node.now) (number_at to.now) }
{
    let node = read_number(node)?;
    let to = read_number(to)?;
    Some(Act::Move { node, to })
}

fn read_three<'a>(verb: &str, node: &str, last: &'a str) -> Option<Act<'a>>
    ensures { orders_of result ≡ of_three verb.now node.now last.now }
{
    match verb {
        "ask" => read_ask(node, last),
        "move" => read_move(node, last),
        _ => None,
    }
}

/// What the words of a line ask for.
fn read_act<'a>(words: &[&'a str]) -> Option<Act<'a>>
    ensures { orders_of result ≡ order_in (map (λ word. word.now) words.now) }
{
    match words {
        [verb, node] => read_two(verb, node),
        [verb, node, last] => read_three(verb, node, last),
        _ => None,
    }
}

/// The words of a line.
fn words_in(alloc: Global, line: &str) -> Result<Vec<&str>, AllocError>
    ensures { IfOk result (λ words. map (λ word. word.now) words.items ≡ slice_split is_space line.now) }
{
    line.split(' ').collect(alloc)
}

/// The lines of a script.
fn lines_in(alloc: Global, text: &str) -> Result<Vec<&str>, AllocError>
    ensures { IfOk result (λ lines. map (λ line. line.now) lines.items ≡ slice_split is_line_feed text.now) }
{
    text.split('\n').collect(alloc)
}

/// What a line asks for.
#[tactic(auto, unfolding(crate::specs::Script::reading))]
fn read_line<'a>(alloc: Global, text: &'a str) -> Result<Line<'a>, ScriptFault>
    ensures line { IfOk result (λ line. line_data line ≡ reading text.now) }
    ensures fault { IfErr result (λ fault. fault ≢ Memory → IsTrue (is_fault (reading text.now))) }
{
    let words = words_in(alloc, text)?;
    match read_act(words.as_slice()) {
        Some(act) => Ok(Line { text, act }),
        None => Err(ScriptFault::BadLine),
    }
}

/// Adds a line, unless it is empty.
fn add_line<'a>(alloc: Global, lines: &mut Vec<Line<'a>>, text: &'a str) -> Result<(), ScriptFault>
    ensures lines { OnOk result (map line_data lines.new.items ≡ map line_data lines.old.items ++ readings (text.now ∷ [])) }
    ensures fault { IfErr result (λ fault. fault ≢ Memory → IsTrue (list_any is_fault (readings (text.now ∷ [])))) }
{
    if text.is_empty() {
        return Ok(());
    }
    let line = read_line(alloc, text)?;
    lines.push(line)?;
    Ok(())
}

/// What these lines ask for.
fn read_lines<'a>(alloc: Global, texts: &[&'a str]) -> Result<Vec<Line<'a>>, ScriptFault>
    ensures lines { IfOk result (λ lines. map line_data lines.items ≡ readings (map (λ text. text.now) texts.now)) }
    ensures fault { IfErr result (λ fault. fault ≢ Memory → IsTrue (list_any is_fault (readings (map (λ text. text.now) texts.now)))) }
{
    let mut lines = Vec::new(alloc);
    for text in texts {
        add_line(alloc, &mut lines, text)?;
    }
    Ok(lines)
}

/// What a script asks for, line by line.
///
/// A line ends at a line feed, and its words are parted by one space each. An empty line is skipped; any other that is none
/// of [`Act`]'s is a fault. A number is one of a node, 0 to 7, and a PATH has one character at least.
#[tactic(auto, unfolding(crate::specs::Script::script_in))]
pub fn read_script(alloc: Global, text: &str) -> Result<Vec<Line<'_>>, ScriptFault>
    ensures lines { IfOk result (λ lines. map line_data lines.items ≡ script_in text.now) }
    ensures fault { IfErr result (λ fault. fault ≢ Memory → IsTrue (list_any is_fault (script_in text.now))) }
{
    let texts = lines_in(alloc, text)?;
    read_lines(alloc, texts.as_slice())
}
