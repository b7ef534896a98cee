//! What a request has of its own: its time, and bytes that nobody can tell beforehand.

ghost use Rattle.std.specs.Prelude.{◌≡◌, ◌++◌, ℕ, List};
ghost use Rattle.sha2.specs.Hashers.{Holds256};
ghost use Rattle.sv_session.specs.Token.{part, token_of};

use super::SessionEdit;
use sha2::{Digest, Sha256};
use sv_model::Secret;

/// Adds a text after its length.
fn add_part(hasher: &mut Sha256, text: &[u8])
    ensures { (m : List ℕ) → Holds256 hasher.old m → Holds256 hasher.new (m ++ part text.now) }
{
    hasher.update(&(text.len() as u64).to_be_bytes());
    hasher.update(text);
}

/// The token of a label, by a secret.
#[tactic(auto, unfolding(crate::specs::Token::token_content))]
fn token_of(secret: Secret, label: &str) -> [u8; 32]
    ensures { result ≡ token_of secret label.now }
{
    let mut hasher = Sha256::new();
    hasher.update(b"kegbramble token");
    add_part(&mut hasher, label.as_bytes());
    hasher.update(&secret.0);
    hasher.finalize()
}

impl SessionEdit {
    /// The time of the request in whole seconds since the beginning of 1970 in UTC, as its session's age is counted.
    pub fn now(&self) -> u64
        ensures { result ≡ self.entry.now.now }
    {
        self.now
    }

    /// 32 bytes that nobody can tell who hasn't seen them: the SHA-256 of the label and the fresh secret, which no other request
    /// gets (FIPS 180-4).
    ///
    /// Good for a text that a client has to give back, as a form's token: another request has other bytes, so whoever makes them
    /// keeps them, as an attribute of the session. Two labels have two tokens, and none tells the secret, or another label's. Not
    /// for what the session's own client may not tell: where this request makes a session or changes its id, the client has the
    /// secret in its cookie. No better than the secrets are: of those that are counted anybody can tell them.
    pub fn token(&self, label: &str) -> [u8; 32]
        ensures { result ≡ token_of self.entry.now.fresh.1 label.now }
    {
        let (_, secret) = self.holding.fresh;
        token_of(secret, label)
    }
}
