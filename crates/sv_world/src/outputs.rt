//! The packets that a step sends.

ghost use Rattle.std.specs.Prelude.{◌≡◌, ◌++◌, ◌∷◌, [], IfOk, OnOk};
ghost use Rattle.sv_model.specs.Outputs.{sends_in};

use std::alloc::{AllocError, Global};
use sv_model::{Output, Packet};

fn add_packet(packets: &mut Vec<Packet>, alloc: Global, output: &Output) -> Result<(), AllocError>
    ensures { OnOk result (packets.new.items ≡ packets.old.items ++ sends_in (output.now ∷ [])) }
{
    if let Output::Send(packet) = output {
        packets.push(packet.copy(alloc)?)?;
    }
    Ok(())
}

/// The packets among what is put out, in order.
pub fn sends_in(alloc: Global, outputs: &[Output]) -> Result<Vec<Packet>, AllocError>
    ensures { IfOk result (λ v. v.items ≡ sends_in outputs.now) }
{
    let mut packets = Vec::new(alloc);
    for output in outputs {
        add_packet(&mut packets, alloc, output)?;
    }
    Ok(packets)
}
