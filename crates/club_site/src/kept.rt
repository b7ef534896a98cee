//! What the club keeps in a session.

ghost use Rattle.std.specs.Prelude.{◌≡◌};
ghost use Rattle.sv_web.specs.Exchange.{CompletesGiving};
ghost use Rattle.club_site.specs.Kept as spec;

use sv_model::Sequence;
use sv_session::SessionEdit;
use sv_web::{Exchange, Refusal};

/// The attribute that holds the name of whoever has logged in.
pub const NAME: &str = "name";

/// The attribute that holds the slots that are booked, each as a byte.
pub const SLOTS: &str = "slots";

/// The attribute that holds what is to be said on the next page.
pub const FLASH: &str = "flash";

/// The attribute that holds the list that was sent last.
pub const LIST: &str = "list";

/// What an attribute holds; nothing where there is no such attribute, or no session.
pub fn seen<'a>(edit: &'a SessionEdit, name: &str) -> &'a [u8]
    ensures { result.now ≡ spec.seen edit.entry.now name.now }
{
    edit.get(name).unwrap_or(None).unwrap_or(b"")
}

/// What is to be said once, which is then forgotten.
#[tactic(auto, unfolding(crate::specs::Kept::flash))]
pub fn take_flash(web: &mut Exchange<'_>) -> Result<Sequence<u8>, Refusal>
    ensures { CompletesGiving spec.flash web.old web.new result }
{
    let flash = Vec::from_slice(web.alloc, seen(web.edit, FLASH))?;
    web.edit.remove(FLASH)?;
    Ok(Sequence::from_vec(flash))
}
