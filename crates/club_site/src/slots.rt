//! The slots that members book: an hour of a court each.

ghost use Rattle.std.specs.Prelude.{◌≡◌};
ghost use Rattle.sv_web.specs.Exchange.{CompletesGiving};
ghost use Rattle.club_site.specs.Slots as spec;

use crate::kept::{SLOTS, seen};
use crate::language::say;
use sv_web::{Exchange, Refusal};

/// The court and the hour of a slot.
pub fn place_of(slot: u8) -> (u64, u64)
    ensures { result ≡ spec.place_of slot }
{
    (u64::from(slot / 14) + 1, u64::from(slot % 14) + 8)
}

/// The slot of a court, 1 to 4, and an hour, 8 to 21.
fn slot_of(court: u64, hour: u64) -> Option<u8>
    ensures { result ≡ spec.slot_of court hour }
{
    if court < 1 || court > 4 || hour < 8 || hour > 21 {
        return None;
    }
    Some(((court - 1) * 14 + (hour - 8)) as u8)
}

/// A slot is among those that are booked.
#[tactic(auto, unfolding(crate::specs::Slots::is_booked))]
fn is_booked(slots: &[u8], slot: u8) -> bool
    ensures { result ≡ spec.is_booked slots.now slot }
{
    slots.iter().any(|other| *other == slot)
}

/// Books a slot, or gives why it can't be booked.
#[tactic(auto, unfolding(crate::specs::Slots::booking))]
pub fn book(web: &mut Exchange<'_>, court: u64, hour: u64) -> Result<Option<&'static str>, Refusal>
    ensures { CompletesGiving (spec.booking web.old.call.now court hour) web.old web.new (spec.told result) }
{
    let call = web.call;
    let mut slots = Vec::from_slice(web.alloc, seen(web.edit, SLOTS))?;
    let Some(slot) = slot_of(court, hour) else {
        return Ok(Some(say(call, "There is no such court.", "Kein solcher Platz.")));
    };
    if is_booked(slots.as_slice(), slot) {
        return Ok(Some(say(call, "You have that court.", "Den haben Sie schon.")));
    }
    slots.extend_from_slice(&[slot])?;
    web.edit.set(SLOTS, Some(slots.as_slice()))?;
    Ok(None)
}
