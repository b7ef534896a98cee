//! What the command line offers, by the kit's `clap`.

use clap::{Arg, ArgAction, Command};
use std::alloc::{AllocError, Global};
use sv_model::NODE_LIMIT;
use sv_version::version;

/// The program's name in what it prints, whatever its file is called.
const NAME: &str = "kegctl";

/// So many nodes may be in a cluster.
const NODES: usize = NODE_LIMIT as usize;

/// How a word of the command line is given.
#[derive(Clone, Copy)]
enum Form {
    /// It has to be there.
    Needed,
    /// It may be there.
    Optional,
    /// One for each node, one at least.
    ForEachNode,
    /// A choice that may be there.
    Choice,
    /// A choice with a value, which the help calls as the choice.
    Value,
    /// A choice with a value, which the help calls so.
    Named(&'static str),
    /// A choice with two values.
    Two(&'static [&'static str]),
}

/// A word of the command line, and what its help says.
struct Word {
    id: &'static str,
    form: Form,
    help: &'static str,
}

/// A command, what its help says of it, and its words.
struct Offer {
    name: &'static str,
    about: &'static str,
    words: &'static [Word],
}

/// The descriptor of a cluster's nodes.
const CONFIG: Word = Word {
    id: "CONFIG",
    form: Form::Needed,
    help: "the descriptor of the nodes",
};

/// The port of a node.
const PORT: Word = Word {
    id: "PORT",
    form: Form::Needed,
    help: "the node's port",
};

/// The journal that is listed.
const LISTED: Word = Word {
    id: "JOURNAL",
    form: Form::Needed,
    help: "the first file of the journal; the other has .b behind its name",
};

/// Whether the keys are counted.
const KEYS: Word = Word {
    id: "keys",
    form: Form::Named("CONFIG"),
    help: "the node's descriptor: a last line says how many of its keys are known, by what has become of their sessions, and how many are left",
};

/// The commands, in the order of the help.
const OFFERS: [Offer; 12] = [
    Offer {
        name: "check",
        about: "says what a descriptor has, or where it is at fault and what to write there",
        words: &[
            CONFIG,
            Word {
                id: "against",
                form: Form::Named("OLD"),
                help: "the descriptor that the nodes had until now: says which of their sessions CONFIG would lose",
            },
            Word {
                id: "program",
                form: Form::Named("PROGRAM"),
                help: "a node's program, such as kegbramble-node: is asked whether it has all that CONFIG names",
            },
            Word {
                id: "journal",
                form: Form::Two(&["JOURNAL", "NODE"]),
                help: "says whether JOURNAL can be that of the node with this number, by its records",
            },
        ],
    },
    Offer {
        name: "init",
        about: "makes the journal of a node that has none; of a file that is there it says so, and leaves it as it is",
        words: &[
            CONFIG,
            Word {
                id: "JOURNAL",
                form: Form::Needed,
                help: "the first file of the journal; the other has .b after its name",
            },
            Word {
                id: "NODE",
                form: Form::Needed,
                help: "the number of the node",
            },
        ],
    },
    Offer {
        name: "sessions",
        about: "lists the sessions that a node keeps, by its journal, which is only read",
        words: &[
            LISTED,
            KEYS,
            Word {
                id: "values",
                form: Form::Choice,
                help: "shows values of attributes, which may be secrets",
            },
            Word {
                id: "json",
                form: Form::Choice,
                help: "a line of JSON for each session",
            },
        ],
    },
    Offer {
        name: "records",
        about: "lists the records of a journal, the oldest first; behind a compaction from its snapshot on",
        words: &[LISTED, KEYS],
    },
    Offer {
        name: "move",
        about: "has a node hand a session over to another",
        words: &[
            Word {
                id: "PORT",
                form: Form::Needed,
                help: "the port of the node that has the session",
            },
            Word {
                id: "SESSION",
                form: Form::Needed,
                help: "the value of the session's cookie, or its HOME.SERIAL",
            },
            Word {
                id: "TO",
                form: Form::Needed,
                help: "the number of the node that takes it",
            },
        ],
    },
    Offer {
        name: "tick",
        about: "has a node do what is due",
        words: &[PORT],
    },
    Offer {
        name: "halt",
        about: "halts a node at once",
        words: &[PORT],
    },
    Offer {
        name: "status",
        about: "says which nodes of a cluster answer, and how long each takes",
        words: &[
            CONFIG,
            Word {
                id: "NODE",
                form: Form::Optional,
                help: "the number of one node, which alone is asked",
            },
            Word {
                id: "greet",
                form: Form::Choice,
                help: "also says what each node says of itself, if it runs with --greet, and where they differ",
            },
        ],
    },
    Offer {
        name: "watch",
        about: "shows figures of nodes as a table, which is drawn anew each second; what moves is bold",
        words: &[
            CONFIG,
            Word {
                id: "count",
                form: Form::Named("N"),
                help: "so many tables are shown, a second apart; else they are drawn anew without end on a terminal, and once elsewhere",
            },
            Word {
                id: "METRICS",
                form: Form::ForEachNode,
                help: "the files that nodes write by --metrics, a column of the table each",
            },
        ],
    },
    Offer {
        name: "stop",
        about: "halts all nodes of a cluster at once; their sessions stay in their journals",
        words: &[CONFIG],
    },
    Offer {
        name: "drain",
        about: "takes a node out of use: moves its sessions to the others, and waits until they have them",
        words: &[
            CONFIG,
            Word {
                id: "NODE",
                form: Form::Needed,
                help: "the number of the node",
            },
            Word {
                id: "JOURNAL",
                form: Form::Needed,
                help: "the first file of its journal",
            },
            Word {
                id: "seconds",
                form: Form::Value,
                help: "so long it takes at most, 10 if it isn't said; then it says what is left, and ends with status 6",
            },
            Word {
                id: "to",
                form: Form::Value,
                help: "the nodes that take its sessions in turn, numbers with commas between; else all others",
            },
            Word {
                id: "halt",
                form: Form::Choice,
                help: "halts the node once it has none left",
            },
        ],
    },
    Offer {
        name: "gone",
        about: "says what it means that a node and its files are gone for good, by the journals of all others; and makes the journal of a new node under its number",
        words: &[
            CONFIG,
            Word {
                id: "JOURNAL",
                form: Form::Needed,
                help: "the first file of the new node's journal",
            },
            Word {
                id: "NODE",
                form: Form::Needed,
                help: "the number of the node that is gone",
            },
            Word {
                id: "OTHER",
                form: Form::ForEachNode,
                help: "the first files of the other nodes' journals, in the order of their numbers",
            },
            Word {
                id: "make",
                form: Form::Choice,
                help: "makes the journal; else nothing is written",
            },
        ],
    },
];

/// A word as `clap` has it.
fn arg<'a>(alloc: Global, word: &Word) -> Arg<'a> {
    let arg = Arg::new(alloc, word.id).help(word.help);
    match word.form {
        Form::Needed => arg.required(true).action(ArgAction::Set),
        Form::Optional => arg.action(ArgAction::Set),
        Form::ForEachNode => arg
            .required(true)
            .action(ArgAction::Append)
            .num_args(1..=NODES),
        Form::Choice => arg.long(word.id).action(ArgAction::SetTrue),
        Form::Value => arg.long(word.id),
        Form::Named(name) => arg.long(word.id).value_name(name),
        Form::Two(names) => arg.long(word.id).num_args(2).value_names(names),
    }
}

/// A command as `clap` has it.
fn command<'a>(alloc: Global, offer: &Offer) -> Result<Command<'a>, AllocError> {
    let mut command = Command::new(alloc, offer.name).about(offer.about);
    for word in offer.words {
        command = command.arg(arg(alloc, word))?;
    }
    Ok(command)
}

/// The program without its commands.
fn bare<'a>(alloc: Global) -> Result<Command<'a>, AllocError> {
    let program = Command::new(alloc, NAME).bin_name(NAME)?;
    Ok(
        program
            .about("what an operator of nodes has in hand")
            .version(version())
            .subcommand_required(true)
            .arg_required_else_help(true),
    )
}

/// The program with all its commands.
pub fn program<'a>(alloc: Global) -> Result<Command<'a>, AllocError> {
    let mut program = bare(alloc)?;
    for offer in &OFFERS {
        program = program.subcommand(command(alloc, offer)?)?;
    }
    Ok(program)
}
