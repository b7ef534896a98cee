//! What the shop keeps in a session.

ghost use Rattle.std.specs.Prelude.{◌≡◌, option_copied};
ghost use Rattle.example_servlets.specs.Kept.{seen, session_number};

use sv_session::SessionEdit;

/// The attribute that holds the cart.
pub const CART: &str = "cart";

/// The attribute that holds the last forms that have counted.
pub const FORMS: &str = "forms";

/// The attribute that holds what is to be said of the last form.
pub const NOTICE: &str = "notice";

/// The attribute that holds the last order.
pub const ORDER: &str = "order";

/// The attribute that holds the name of whoever has logged in.
pub const NAME: &str = "name";

/// The attribute that holds the number of the last page, its node, and the moves of the session.
pub const VISIT: &str = "visit";

/// What an attribute holds; none where there is no such attribute, or no session.
pub fn seen<'a>(edit: &'a SessionEdit, name: &str) -> Option<&'a [u8]>
    ensures { option_copied result ≡ seen edit.entry.now name.now }
{
    match edit.get(name) {
        Ok(value) => value,
        Err(_) => None,
    }
}

/// The number of the session, which no other has while a node makes fewer than 2^56; 0 where there is none.
pub fn session_number(edit: &SessionEdit) -> u64
    ensures { result ≡ session_number edit.entry.now }
{
    match edit.key() {
        Ok(key) => key.serial % 0x0100_0000_0000_0000 * 256 + u64::from(key.home),
        Err(_) => 0,
    }
}
