//! Files of a test's own.

use std::process::Abort;
use std::{env, fs, process};

/// The folder where temporary files go.
fn folder(rt: &impl Abort, machine: &HostRuntime) -> String {
    let folder = env::temp_dir(machine).expect(rt, "a folder");
    let folder = folder.as_path();
    format!(in machine.alloc(); "{}", folder.to_string_lossy()).expect(rt, "memory")
}

/// The path of a file of this test's process alone, which is left where temporary files go.
pub fn own_path(rt: &impl Abort, machine: &HostRuntime, name: &str) -> String {
    let folder = folder(rt, machine);
    let id = process::id(machine.process());
    format!(in machine.alloc(); "{folder}/sv_host-{id}-{name}").expect(rt, "memory")
}

/// Such a path where no file stands.
pub fn new_path(rt: &impl Abort, machine: &HostRuntime, name: &str) -> String {
    let path = own_path(rt, machine, name);
    let _ = fs::remove_file(machine, &path);
    path
}

/// What a file has.
pub fn text_in(rt: &impl Abort, machine: &HostRuntime, path: &String) -> String {
    fs::read_to_string(machine, path).expect(rt, "a file")
}

/// Takes a file away.
pub fn remove(rt: &impl Abort, machine: &HostRuntime, path: &String) {
    fs::remove_file(machine, path).expect(rt, "a file");
}

/// What a file has, which is then gone.
pub fn taken(rt: &impl Abort, machine: &HostRuntime, path: &String) -> String {
    let text = text_in(rt, machine, path);
    remove(rt, machine, path);
    text
}
