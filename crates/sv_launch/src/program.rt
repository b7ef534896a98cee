//! What a program of nodes does: as the words of its command line ask for, with applications of its own.

ghost use Rattle.std.specs.Prelude.{◌≡◌, IfOk};
ghost use Rattle.sv_host.specs.Place.{setting_in};
ghost use Rattle.sv_host.specs.Running.{HasRun};
ghost use Rattle.sv_launch.specs.Started.{RunsAsRead};

use crate::application::Applications;
use crate::descriptor::read_config;
use crate::failure::log_failure;
use crate::fault::Fault;
use crate::files::refuse_shared;
use crate::purpose::Running;
use crate::reading::{ReadFault, read_served};
use crate::served::ServedFiles;
use crate::sums::summed;
use crate::words::{Greetings, NodeWords, Words, read_words};
use std::io::ErrorKind;
use std::process::ExitCode;
use std::{env, io};
use sv_config::Deployment;
use sv_host::Place;
use sv_journal::{Disk, FileDisk};
use sv_version::version;

/// The words after the program's name. One that is no UTF-8 text is [`Fault::Arguments`].
pub fn words_of(rt: &HostRuntime) -> Result<Vec<String>, Fault> {
    let mut words = Vec::new(rt.alloc());
    let args = match env::args(rt) {
        Ok(args) => args,
        Err(fault) if fault.kind() == ErrorKind::OutOfMemory => return Err(Fault::Memory),
        Err(_) => return Err(Fault::Arguments),
    };
    for word in args.skip(1) {
        words.push(word)?;
    }
    Ok(words)
}

/// The files that the contexts of a descriptor at a path serve. Of those that can't be served the first is a line on standard error.
fn files_of(
    rt: &HostRuntime,
    config: &str,
    deployment: &Deployment,
) -> Result<Vec<ServedFiles>, Fault> {
    match read_served(rt, config, deployment.contexts.as_slice()) {
        Ok(files) => Ok(files),
        Err(ReadFault::Memory) => Err(Fault::Memory),
        Err(ReadFault::NotServed(file)) => {
            let _ = eprintln!(rt; "{file}");
            Err(Fault::NotServed)
        }
    }
}

/// Serves standard input to its end by the descriptor at a path, all of it at `now` in whole seconds since 1970.
fn serve_input<A: Applications>(
    applications: &A,
    rt: &HostRuntime,
    config: &str,
    now: u64,
) -> Result<(), Fault> {
    let deployment = read_config(rt, applications.built_in(), config)?;
    let files = files_of(rt, config, &deployment)?;
    let mut reader = rt.reader();
    let mut writer = io::writer(rt);
    applications.stream(
        rt.alloc(),
        deployment,
        files.as_slice(),
        now,
        &mut reader,
        &mut writer,
    )
}

/// Where a node stands, and what it says of itself to the others, where it greets them.
fn place_of(
    machine: &HostRuntime,
    deployment: &Deployment,
    files: &[ServedFiles],
    node: &NodeWords<'_>,
) -> Result<Place, Fault>
    ensures { IfOk result (λ place. place.setting ≡ setting_in deployment.now.cluster node.now.number) }
{
    let place = Place::new(machine.alloc(), &deployment.cluster, node.number)?;
    let place = place.naming(node.options.naming);
    Ok(match node.options.greetings {
        Greetings::On => place.greeting(summed(&deployment.contexts, files)),
        Greetings::Off => place,
    })
}

/// Runs a node in the cluster of its descriptor, over its files, until a command stops it.
fn serve_in_cluster<A: Applications>(
    applications: &A,
    machine: &HostRuntime,
    node: &NodeWords<'_>,
) -> Result<(), Fault>
    ensures { IfOk result (λ _. RunsAsRead (A.means applications.now) (λ meaning heard place. HasRun ⟦<FileDisk as Disk>⟧.tells
        ⟦<FileDisk as Disk>⟧.seen ⟦<FileDisk as Disk>⟧.may_leave meaning heard place node.now.options.persistence) node.now.number) }
{
    refuse_shared(machine, node, None)?;
    let deployment = read_config(machine, applications.built_in(), node.config)?;
    refuse_shared(machine, node, deployment.cluster.secrets.as_deref())?;
    let files = files_of(machine, node.config, &deployment)?;
    let place = place_of(machine, &deployment, files.as_slice(), node)?;
    let running = Running {
        machine,
        place,
        persistence: node.options.persistence,
        paths: node.paths(),
    };
    applications.start(machine.alloc(), deployment, files.as_slice(), running)
}

/// The same; why it ends otherwise than by a command is the last line of its log, where it has one.
fn run_in_cluster<A: Applications>(
    applications: &A,
    machine: &HostRuntime,
    node: &NodeWords<'_>,
) -> Result<(), Fault> {
    let served = serve_in_cluster(applications, machine, node);
    if let Err(fault) = served {
        log_failure(machine, applications.built_in(), node, fault);
    }
    served
}

/// What the words may be, after the program's name.
const HELP: &str = " serves web applications over HTTP/1.1, and keeps their sessions in a journal.

    [OPTION ..] CONFIG JOURNAL NUMBER   runs a node of a cluster until it is told to halt; it says `ready` and its
                                        number once it serves
    --once CONFIG NOW                   serves the requests of standard input, to standard output
    --help, --version

    CONFIG        the descriptor of the nodes and their applications, in TOML; with --once also -, for the one that is
                  built in
    JOURNAL       the file that keeps the node's sessions, beside a second one with .b behind its name; both are made
                  where they aren't there, but for --existing
    NUMBER        which node of the descriptor it is, from 0
    NOW           the moment of all requests, in whole seconds since 1970

    --keep-alive    lets each connection of a client bring many requests, else one
    --existing      ends with NoJournal where a file of the journal isn't there, and makes none: kegctl init does
    --wait          waits where another process has the journal, without listening meanwhile, in place of ending with Locked
    --greet         asks the other nodes before it serves, and greets them every 10 seconds: which start of this node they
                    have heard of, how many nodes they were told of, and which contexts they have; packets of a node that
                    has others aren't taken
    --name-causes   names the cause of each 503 of its own in a field of the answer, too: Kegbramble-Cause
    --log FILE      adds a line to FILE, or writes it to standard error where FILE is -, for each thing that may be
                    asked about afterwards: what was opened, refused, lost or ordered, and the fault that ends the node
    --metrics FILE  writes the node's figures to FILE every 5 seconds, as Prometheus reads them

Status 0: halted, or served to the end. 2: words. 3: the descriptor, or an object that it names. 4: the journal. 5: a
socket, secrets, the log, the figures, standard input or output. 6: another process has the journal. A fault prints one
line with its name on standard error.
";

/// What the program's file is called, as it was called.
fn name_of(rt: &HostRuntime) -> Result<String, Fault> {
    let Ok(mut args) = env::args(rt) else {
        return Err(Fault::Arguments);
    };
    let called = match args.next() {
        Some(called) => called,
        None => String::new(rt.alloc()),
    };
    let name = called.rsplit('/').next().unwrap_or("");
    Ok(String::from_str(rt.alloc(), name)?)
}

/// Prints the program's name with a text after it.
fn say(rt: &HostRuntime, text: &str) -> Result<(), Fault> {
    let name = name_of(rt)?;
    match print!(rt; "{name}{text}") {
        Ok(()) => Ok(()),
        Err(_) => Err(Fault::Output),
    }
}

/// Prints which version the program is.
fn say_version(rt: &HostRuntime) -> Result<(), Fault> {
    let text = format!(in rt.alloc(); " {}\n", version())?;
    say(rt, text.as_str())
}

/// Does what the words of a command line ask for: serves standard input, runs a node, or says what was asked of the program itself.
/// Other words are [`Fault::Arguments`].
fn run<A: Applications>(applications: &A, rt: &HostRuntime, words: &[String]) -> Result<(), Fault> {
    match read_words(words) {
        Ok(Words::Once { config, now }) => serve_input(applications, rt, config, now),
        Ok(Words::Node(node)) => run_in_cluster(applications, rt, &node),
        Ok(Words::Help) => say(rt, HELP),
        Ok(Words::Version) => say_version(rt),
        Err(_) => Err(Fault::Arguments),
    }
}

/// The same for the words that the program was called with.
fn run_as_called<A: Applications>(applications: &A, rt: &HostRuntime) -> Result<(), Fault> {
    let words = words_of(rt)?;
    run(applications, rt, words.as_slice())
}

/// What the `main` of a program does: all that its words ask for. A fault is a line on standard error, the program's name and its own, and
/// its exit status.
pub fn launch<A: Applications>(rt: &HostRuntime, name: &str, applications: &A) -> ExitCode {
    match run_as_called(applications, rt) {
        Ok(()) => ExitCode::SUCCESS,
        Err(fault) => {
            let _ = eprintln!(rt; "{name}: {fault}");
            ExitCode::from(fault.status())
        }
    }
}

/// The number of the node that the program was called as; one that stands alone has the number 0.
pub fn number_of(rt: &HostRuntime) -> u8 {
    let Ok(words) = words_of(rt) else {
        return 0;
    };
    match read_words(words.as_slice()) {
        Ok(Words::Node(node)) => node.number,
        _ => 0,
    }
}
