//! What a node tells its operator, line by line. Expected lines are written by hand, from what docs/OPERATING.md says of the log and of
//! the figures. 784111777 is the example date of RFC 9110, section 5.6.7: Sun, 06 Nov 1994 08:49:37 GMT.

mod events;
mod figures;
mod lines;
mod texts;
