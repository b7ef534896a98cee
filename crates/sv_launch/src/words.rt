//! The words of the command line.

ghost use Rattle.std.specs.Prelude.{◌≡◌, drop, map, option_map, string_bytes};
ghost use Rattle.sv_web.specs.Numeral.{number_in};
ghost use Rattle.sv_launch.specs.Words.{command_of, command_in, once_at, node_at, of_one, of_three, of_more, is_first, file_of, flag_of, naming_flag_of, option_of, options_of, last_of};

use sv_connection::Naming;
use sv_host::{IfLocked, Paths};
use sv_journal::IfMissing;
use sv_net::Persistence;
use sv_web::{read_u8, read_u64};
use thiserror::Error;

/// What the program is asked to do.
#[derive(Clone, Copy, Debug, PartialEq, Eq)]
pub enum Words<'a> {
    /// `--once CONFIG NOW`: serves standard input, at a moment in whole seconds since 1970.
    Once { config: &'a str, now: u64 },
    /// `CONFIG JOURNAL NUMBER`, and options before them: runs the node of that number.
    Node(NodeWords<'a>),
    /// `--help` or `-h`: says what the words may be.
    Help,
    /// `--version` or `-V`: says which version it is.
    Version,
}

/// What a node is started with.
#[derive(Clone, Copy, Debug, PartialEq, Eq)]
pub struct NodeWords<'a> {
    pub options: Options<'a>,
    pub config: &'a str,
    pub journal: &'a str,
    pub number: u8,
}

impl<'a> NodeWords<'a> {
    /// The files that the node writes.
    pub fn paths(&self) -> Paths<'a> {
        Paths {
            journal: self.journal,
            if_missing: self.options.if_missing,
            if_locked: self.options.if_locked,
            log: self.options.log,
            metrics: self.options.metrics,
        }
    }
}

/// Whether a node greets the others.
#[derive(Clone, Copy, Debug, PartialEq, Eq)]
pub enum Greetings {
    Off,
    On,
}

/// How a node runs.
#[derive(Clone, Copy, Debug, PartialEq, Eq)]
pub struct Options<'a> {
    /// `--keep-alive`: its clients' connections are kept.
    pub persistence: Persistence,
    /// `--existing`: the journal's files have to be there.
    pub if_missing: IfMissing,
    /// `--wait`: it waits for a journal that another process has.
    pub if_locked: IfLocked,
    /// `--greet`: it asks the other nodes before it serves, and greets them while it does.
    pub greetings: Greetings,
    /// `--name-causes`: a refusal's cause stands in a field of the answer, too.
    pub naming: Naming,
    /// `--log FILE`: what happens is written there, or to standard error where FILE is `-`.
    pub log: Option<&'a str>,
    /// `--metrics FILE`: its figures are written there.
    pub metrics: Option<&'a str>,
}

impl Options<'_> {
    /// Those of a node whose words have none.
    pub const NONE: Options<'static> = Options {
        persistence: Persistence::Single,
        if_missing: IfMissing::Make,
        if_locked: IfLocked::End,
        greetings: Greetings::Off,
        naming: Naming::InBody,
        log: None,
        metrics: None,
    };
}

/// The words ask for nothing.
#[derive(Clone, Copy, Debug, PartialEq, Eq, Error)]
#[error("the words are neither `--once CONFIG NOW` nor `[OPTION ..] CONFIG JOURNAL NUMBER`")]
pub struct Arguments;

/// `--once CONFIG NOW`.
fn read_once<'a>(config: &'a str, now: &str) -> Result<Words<'a>, Arguments>
    ensures { command_of result ≡ once_at config.now (number_in 64 now.now) }
{
    match read_u64(now) {
        Some(now) => Ok(Words::Once { config, now }),
        None => Err(Arguments),
    }
}

/// `CONFIG JOURNAL NUMBER`.
fn read_node<'a>(
    options: Options<'a>,
    config: &'a str,
    journal: &'a str,
    number: &str,
) -> Result<Words<'a>, Arguments>
    ensures { command_of result ≡ node_at (options_of options.entry) config.now journal.now (number_in 8 number.now) }
{
    match read_u8(number) {
        Some(number) => Ok(Words::Node(NodeWords {
            options,
            config,
            journal,
            number,
        })),
        None => Err(Arguments),
    }
}

/// One word.
fn read_one<'a>(word: &str) -> Result<Words<'a>, Arguments>
    ensures { command_of result ≡ of_one word.now }
{
    if word == "--help" || word == "-h" {
        Ok(Words::Help)
    } else if word == "--version" || word == "-V" {
        Ok(Words::Version)
    } else {
        Err(Arguments)
    }
}

/// Three words.
fn read_three<'a>(first: &'a str, second: &'a str, third: &str) -> Result<Words<'a>, Arguments>
    ensures { command_of result ≡ of_three first.now second.now third.now }
{
    if first == "--once" {
        read_once(second, third)
    } else {
        read_node(Options::NONE, first, second, third)
    }
}

/// This word stands at the front of the words, with another after it.
fn is_first(word: &str, words: &[String]) -> bool
    ensures { result ≡ is_first word.now (map string_bytes words.now) }
{
    match words {
        [first, _, ..] => first.as_str() == word,
        _ => false,
    }
}

/// The options, with one that names a file and stands at the front of the words, and the words after it; as they are where none stands
/// there.
fn read_file<'a>(options: Options<'a>, words: &'a [String]) -> (Options<'a>, &'a [String])
    ensures options { options_of result.0 ≡ (file_of (options_of options.entry) (map string_bytes words.now)).0 }
    ensures words { map string_bytes result.1.now ≡ (file_of (options_of options.entry) (map string_bytes words.now)).1 }
{
    let [first, second, rest @ ..] = words else {
        return (options, words);
    };
    match first.as_str() {
        "--log" => (
            Options {
                log: Some(second.as_str()),
                ..options
            },
            rest,
        ),
        "--metrics" => (
            Options {
                metrics: Some(second.as_str()),
                ..options
            },
            rest,
        ),
        _ => (options, words),
    }
}

/// The options, with `--name-causes` where it stands at the front of the words; else none.
fn naming<'a>(options: Options<'a>, words: &[String]) -> Option<Options<'a>>
    ensures { option_map options_of result ≡ naming_flag_of (options_of options.entry) (map string_bytes words.now) }
{
    if is_first("--name-causes", words) {
        Some(Options {
            naming: Naming::InField,
            ..options
        })
    } else {
        None
    }
}

/// The options, with one that is a word alone and stands at the front of the words; none where none stands there.
fn flagged<'a>(options: Options<'a>, words: &[String]) -> Option<Options<'a>>
    ensures { option_map options_of result ≡ flag_of (options_of options.entry) (map string_bytes words.now) }
{
    if is_first("--greet", words) {
        Some(Options {
            greetings: Greetings::On,
            ..options
        })
    } else if is_first("--wait", words) {
        Some(Options {
            if_locked: IfLocked::Wait,
            ..options
        })
    } else if is_first("--keep-alive", words) {
        Some(Options {
            persistence: Persistence::Kept,
            ..options
        })
    } else if is_first("--existing", words) {
        Some(Options {
            if_missing: IfMissing::Refuse,
            ..options
        })
    } else {
        naming(options, words)
    }
}

/// The words after the first.
fn behind_first(words: &[String]) -> &[String]
    ensures { map string_bytes result.now ≡ drop 1 (map string_bytes words.now) }
{
    match words {
        [_, rest @ ..] => rest,
        [] => words,
    }
}

/// The options, with the one that stands at the front of the words, and the words after it; as they are where none stands there.
fn read_option<'a>(options: Options<'a>, words: &'a [String]) -> (Options<'a>, &'a [String])
    ensures options { options_of result.0 ≡ (option_of (options_of options.entry) (map string_bytes words.now)).0 }
    ensures words { map string_bytes result.1.now ≡ (option_of (options_of options.entry) (map string_bytes words.now)).1 }
{
    match flagged(options, words) {
        Some(options) => (options, behind_first(words)),
        None => read_file(options, words),
    }
}

/// The words of a node, after its options.
fn read_last<'a>(options: Options<'a>, words: &'a [String]) -> Result<Words<'a>, Arguments>
    ensures { command_of result ≡ last_of (options_of options.entry) (map string_bytes words.now) }
{
    match words {
        [config, journal, number] => read_node(
            options,
            config.as_str(),
            journal.as_str(),
            number.as_str(),
        ),
        _ => Err(Arguments),
    }
}

/// Up to seven options, and the words of a node. Of two equal options the last one counts.
fn read_more(words: &[String]) -> Result<Words<'_>, Arguments>
    ensures { command_of result ≡ of_more (map string_bytes words.now) }
{
    let (options, words) = read_option(Options::NONE, words);
    let (options, words) = read_option(options, words);
    let (options, words) = read_option(options, words);
    let (options, words) = read_option(options, words);
    let (options, words) = read_option(options, words);
    let (options, words) = read_option(options, words);
    let (options, words) = read_option(options, words);
    read_last(options, words)
}

/// What the words after the program's name ask for.
///
/// NOW and NUMBER are decimal digits without a sign, within 64 and 8 bits.
pub fn read_words(words: &[String]) -> Result<Words<'_>, Arguments>
    ensures { command_of result ≡ command_in (map string_bytes words.now) }
{
    match words {
        [word] => read_one(word.as_str()),
        [first, second, third] => read_three(first.as_str(), second.as_str(), third.as_str()),
        [_, _, _, _, ..] => read_more(words),
        _ => Err(Arguments),
    }
}
