//! The words of the command line.

ghost use Rattle.std.specs.Prelude.{◌≡◌, map, string_bytes};
ghost use Rattle.sv_cluster.specs.Words.{call_in, call_of};

use thiserror::Error;

/// `NODE CONFIG DIR SCRIPT`.
#[derive(Clone, Copy, Debug, PartialEq, Eq)]
pub struct Words<'a> {
    /// The program that is run as a node; a name without a slash is looked for in the PATH.
    pub node: &'a str,
    /// The path of the descriptor.
    pub config: &'a str,
    /// The folder of the journals.
    pub folder: &'a str,
    /// The path of the script.
    pub script: &'a str,
}

/// The words ask for nothing.
#[derive(Clone, Copy, Debug, PartialEq, Eq, Error)]
#[error("the words are not `NODE CONFIG DIR SCRIPT`")]
pub struct Arguments;

/// What the words after the program's name ask for.
pub fn read_words(words: &[String]) -> Result<Words<'_>, Arguments>
    ensures { call_of result ≡ call_in (map string_bytes words.now) }
{
    let [node, config, folder, script] = words else {
        return Err(Arguments);
    };
    Ok(Words {
        node: node.as_str(),
        config: config.as_str(),
        folder: folder.as_str(),
        script: script.as_str(),
    })
}
