//! Laws of what comes on a client's connection.

ghost use Rattle.sv_net.specs.Life.{KeepsBytes};

/// The bytes that came of a client, however they were cut into pieces, are the messages of the requests that were given, in order, and
/// what is kept: nothing is dropped, read twice or made up.
pub fn what_came_is_kept()
    ensures { KeepsBytes }
{}
