//! In which second a line happens, and with which secret.

use crate::fault::RowFault;
use crate::words::{number, small, word};
use sv_model::{Moment, Secret};

/// The moment of a second; the secret is a number.
fn moment(now: u64, secret: u8) -> Moment {
    Moment {
        now,
        steady: now,
        secret: Secret([0, 0, 0, 0, 0, 0, 0, 0, 0, 0, 0, 0, 0, 0, 0, secret]),
    }
}

/// The moment of a story's first line.
pub fn start() -> Moment {
    moment(1000, 1)
}

/// The moment that the words `SECOND SECRET` say.
fn read(words: &str) -> Result<Moment, RowFault> {
    let (now, secret) = word(words);
    Ok(moment(number(now)?, small(secret)?))
}

/// The moment from a line on: that which it says after `at`, else the one before.
pub fn behind(moment: Moment, line: &str) -> Result<Moment, RowFault> {
    match word(line) {
        ("at", words) => read(words),
        _ => Ok(moment),
    }
}
