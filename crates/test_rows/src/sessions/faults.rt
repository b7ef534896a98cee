//! The names and texts of faults. The part of `session-fault` is the fault's number, or `memory` for that of refused memory.

use crate::fault::RowFault;
use std::alloc::{AllocError, Global};
use sv_session::SessionFault;

fn fault_of(part: &str) -> Result<SessionFault, RowFault> {
    match part {
        "1" => Ok(SessionFault::NoSession),
        "2" => Ok(SessionFault::BadName),
        "3" => Ok(SessionFault::ValueTooLong),
        "4" => Ok(SessionFault::SessionTooLarge),
        "5" => Ok(SessionFault::SecondCreation),
        "6" => Ok(SessionFault::Memory),
        "7" => Ok(SessionFault::SecretUsed),
        "memory" => Ok(SessionFault::from(AllocError)),
        _ => Err(RowFault::Part),
    }
}

/// A fault's name, and its text.
pub fn fault(alloc: Global, part: &str) -> Result<String, RowFault> {
    let fault = fault_of(part)?;
    Ok(format!(in alloc; "{}: {fault}", fault.name())?)
}
