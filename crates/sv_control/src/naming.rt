//! How an operator names a session: by its key as `HOME.SERIAL`.

ghost use Rattle.std.specs.Prelude.{◌≡◌, IfOk, IfSome, IsNone, string_bytes};
ghost use Rattle.sv_control.specs.Naming as spec;
ghost use Rattle.sv_control.specs.Naming.{Names};
ghost use Rattle.sv_model.specs.declared.key.Key.{Key as KeyOfModel};

use std::alloc::{AllocError, Global};
use std::fmt;
use sv_model::{Key, NODE_LIMIT};

/// A key, which prints as its home, a point and its serial, in decimal.
#[derive(Clone, Copy)]
pub struct ShownKey(pub Key);

impl fmt::Display for ShownKey {
    ghost use Rattle.std.specs.Prelude.{Some};

    ghost output = { λ shown. Some (spec.key_text shown.0) };

    #[tactic(auto, unfolding(crate::specs::Naming::key_text))]
    fn fmt<W: fmt::Write>(&self, f: &mut fmt::Formatter<W>) -> fmt::Result {
        write!(f, "{}.{}", self.0.home, self.0.serial)
    }
}

/// A key as it is shown.
pub fn key_text(alloc: Global, key: Key) -> Result<String, AllocError>
    ensures { IfOk result (λ text. string_bytes text ≡ spec.key_text key) }
{
    format!(in alloc; "{}", ShownKey(key))
}

/// The key that a text shows: `HOME.SERIAL` in decimal, the home below 8 and the serial above 0.
pub fn shown_key(text: &str) -> Option<Key>
    ensures names { IfSome result (λ key. Names text.now key) }
    ensures each { (key : KeyOfModel) → Names text.now key → result ≡ Some key }
{
    let (home, serial) = text.split_once('.')?;
    let home = home.parse::<u8>().ok()?;
    let serial = serial.parse::<u64>().ok()?;
    if home < NODE_LIMIT && serial > 0 {
        Some(Key { home, serial })
    } else {
        None
    }
}
