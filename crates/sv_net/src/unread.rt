//! The names of what is no request that is served.

use sv_connection::RequestFault;
use sv_message::ReadFault;
use sv_target::TargetFault;

/// The name of a fault of a message.
fn name_of_read(fault: ReadFault) -> &'static str {
    match fault {
        ReadFault::BadHead => "BadHead",
        ReadFault::HeadTooLong => "HeadTooLong",
        ReadFault::BadHost => "BadHost",
        ReadFault::BadFraming => "BadFraming",
        ReadFault::BodyTooLong => "BodyTooLong",
        ReadFault::Coding => "Coding",
        ReadFault::Expectation => "Expectation",
        ReadFault::Memory => "Memory",
        ReadFault::Closed => "Closed",
    }
}

/// The name of a fault, as the log has it.
pub fn name_of(fault: RequestFault) -> &'static str {
    match fault {
        RequestFault::Read(fault) => name_of_read(fault),
        RequestFault::Target(TargetFault::Connect) => "Connect",
        RequestFault::Target(TargetFault::BadTarget) => "BadTarget",
        RequestFault::Target(TargetFault::Memory) => "Memory",
    }
}
