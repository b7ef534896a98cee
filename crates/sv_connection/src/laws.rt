//! Laws of what a connection receives.

ghost use Rattle.sv_connection.specs.Receive.{HoldsNoMessage, MeetsFaults};

use sv_message::laws::front_is_one_thing;

/// What stands at the front of what has come is received: a fault is met, and where less than a request is received, none has come.
/// That a request is given where its message stands is a clause of [`crate::connection::Connection::receive`].
pub fn what_stands_is_received()
    ensures faults { MeetsFaults }
    ensures none { HoldsNoMessage }
{
    front_is_one_thing();
}
