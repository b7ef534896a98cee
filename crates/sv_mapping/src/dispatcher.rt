//! Dispatchers: how a request came to a servlet (Jakarta Servlet 6.0, section 6.2.5).

ghost use Rattle.std.specs.Prelude.{◌≡◌, ◌↔◌, IsTrue, map, bytes_eq};
ghost use Rattle.std.specs.List.{list_any};
ghost use Rattle.std.specs.Result.{result_ok};
ghost use Rattle.sv_mapping.specs.Dispatcher as spec;
ghost use Rattle.sv_mapping.specs.declared.dispatcher.Dispatcher.{Dispatcher as Name};

use std::str::FromStr;
use thiserror::Error;

/// How a request came to a servlet.
#[derive(Clone, Copy, Debug, PartialEq, Eq)]
pub enum Dispatcher {
    /// From the client.
    Request,
    /// By a forward.
    Forward,
    /// By an include.
    Include,
    /// To an error page.
    Error,
}

/// A word that is no dispatcher's.
#[derive(Clone, Copy, Debug, PartialEq, Eq, Error)]
#[error("a dispatcher is REQUEST, FORWARD, INCLUDE or ERROR")]
pub struct UnknownDispatcher;

impl Dispatcher {
    /// Its word in a descriptor: `REQUEST`, `FORWARD`, `INCLUDE` or `ERROR`.
    pub fn word(self) -> &'static str
        ensures { result.now ≡ spec.word_of self }
    {
        match self {
            Dispatcher::Request => "REQUEST",
            Dispatcher::Forward => "FORWARD",
            Dispatcher::Include => "INCLUDE",
            Dispatcher::Error => "ERROR",
        }
    }
}

impl FromStr for Dispatcher {
    type Err = UnknownDispatcher;

    ghost from_str_gives = { λ word answer. result_ok answer ≡ spec.dispatcher_of word };

    #[tactic(auto, unfolding(crate::specs::Dispatcher::dispatcher_of))]
    fn from_str(word: &str) -> Result<Dispatcher, UnknownDispatcher> {
        match word {
            "REQUEST" => Ok(Dispatcher::Request),
            "FORWARD" => Ok(Dispatcher::Forward),
            "INCLUDE" => Ok(Dispatcher::Include),
            "ERROR" => Ok(Dispatcher::Error),
            _ => Err(UnknownDispatcher),
        }
    }
}

/// The dispatchers that a filter mapping is for.
#[derive(Clone, Copy, Debug, PartialEq, Eq)]
pub struct Dispatchers {
    request: bool,
    forward: bool,
    include: bool,
    error: bool,
}

impl Dispatchers {
    /// The dispatchers of a mapping that lists these. None listed means REQUEST alone.
    pub fn of(listed: &[Dispatcher]) -> Dispatchers
        ensures { (dispatcher : Name) → IsTrue (spec.carries result dispatcher) ↔ spec.IsListed listed.now dispatcher }
    {
        Dispatchers {
            request: is_listed(listed, Dispatcher::Request),
            forward: is_listed(listed, Dispatcher::Forward),
            include: is_listed(listed, Dispatcher::Include),
            error: is_listed(listed, Dispatcher::Error),
        }
    }

    /// The dispatchers of a mapping that lists these words. No word means REQUEST alone; a word that is no
    /// dispatcher's is passed over.
    pub fn of_words(words: &[&str]) -> Dispatchers
        ensures { result ≡ spec.dispatchers_of (map (λ word. word.now) words.now) }
    {
        Dispatchers {
            request: means_request(words),
            forward: is_among(words, "FORWARD"),
            include: is_among(words, "INCLUDE"),
            error: is_among(words, "ERROR"),
        }
    }

    /// Whether a dispatcher is among them.
    pub fn contains(self, dispatcher: Dispatcher) -> bool
        ensures { result ≡ spec.carries self dispatcher }
    {
        match dispatcher {
            Dispatcher::Request => self.request,
            Dispatcher::Forward => self.forward,
            Dispatcher::Include => self.include,
            Dispatcher::Error => self.error,
        }
    }
}

fn means_request(words: &[&str]) -> bool
    ensures { result ≡ spec.means_request (map (λ word. word.now) words.now) }
{
    words.is_empty() || is_among(words, "REQUEST")
}

fn is_among(words: &[&str], word: &str) -> bool
    ensures { result ≡ spec.is_among (map (λ its. its.now) words.now) word.now }
{
    has_equal(words, word)
}

fn has_equal(words: &[&str], word: &str) -> bool
    ensures { result ≡ list_any (λ its. bytes_eq its.now word.now) words.now }
{
    words.iter().any(|its| *its == word)
}

/// Whether a mapping that lists these dispatchers is for one.
fn is_listed(listed: &[Dispatcher], dispatcher: Dispatcher) -> bool
    ensures { IsTrue result ↔ spec.IsListed listed.now dispatcher }
{
    if listed.is_empty() {
        dispatcher == Dispatcher::Request
    } else {
        listed.contains(&dispatcher)
    }
}
