//! Disks and journals. Expected bytes are those of the journal's format, written out beside each row: a gate (0xA5 open, anything
//! else closed), the letters, the format's number, the generation, then entries of a gate, a length and a payload, and a closed gate.

mod calls;
mod failing;
mod files;
mod fixtures;
mod format;
mod small_file;
mod stage;
mod stopped_files;
mod stories;
mod torn;
