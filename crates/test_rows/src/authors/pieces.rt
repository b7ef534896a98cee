//! Pages of pieces: `markup`, or `shown` with a text, or `number` or `price` with a number.

use crate::fault::RowFault;
use crate::row::{first_word, number};
use std::alloc::Global;
use sv_web::{Page, Piece};

fn piece_of(part: &str) -> Result<Piece<'_>, RowFault> {
    match first_word(part) {
        ("markup", _) => Ok(Piece::Markup("<p>")),
        ("shown", text) => Ok(Piece::Shown(text.as_bytes())),
        ("number", digits) => Ok(Piece::Number(number(digits)?)),
        ("price", digits) => Ok(Piece::Price(number(digits)?)),
        _ => Err(RowFault::Part),
    }
}

/// The page of the pieces, one after the other.
pub fn page_of(alloc: Global, parts: &str) -> Result<Page, RowFault> {
    let mut page = Page::new(alloc);
    for part in parts.split('|') {
        page.write(&[piece_of(part)?])?;
    }
    Ok(page)
}
