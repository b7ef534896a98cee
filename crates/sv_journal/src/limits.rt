//! The limits of a journal.

/// The most bytes of an entry's payload.
pub const PAYLOAD_LIMIT: usize = 524_288;

/// The most bytes of a journal's file.
pub const FILE_LIMIT: u64 = 1_073_741_824;
