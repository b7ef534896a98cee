//! What is said of a descriptor's fault, and descriptors of a megabyte.

pub mod size;
pub mod texts;
