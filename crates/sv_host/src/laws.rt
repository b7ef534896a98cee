//! Laws of what ticks send, and of what happens on a connection.

ghost use Rattle.sv_host.specs.Stories.{StoriesAreWhole};
ghost use Rattle.sv_host.specs.Turns.{KeepsPlaces, SendsEachInTime, SendsEachInTurn};

/// A packet that ticks keep putting out is sent in its turn: within as many ticks as the packets of its line, each counted once, by what a
/// tick lets through of that line at least, rounded up. A tick lets 96 wants through and 32 others, and 128 of a line that is alone.
pub fn each_packet_has_its_turn()
    ensures turn { SendsEachInTurn }
    ensures time { SendsEachInTime }
    ensures kept { KeepsPlaces }
{}

/// Of each connection, over any stretch of its life: what was said on it is what had been said and the texts, each whole and once, in order;
/// what came is what had come and the pieces, in order; and of a client these are the messages of the requests that were heard, in order,
/// and what is still to be heard: nothing is dropped, heard twice or made up between two turns.
pub fn each_story_is_whole()
    ensures { StoriesAreWhole }
{}
