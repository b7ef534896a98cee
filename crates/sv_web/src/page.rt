//! Pages in HTML, which are written in pieces.

ghost use Rattle.std.specs.Prelude.{◌≡◌, ◌++◌, [], OnOk};
ghost use Rattle.std.specs.List.{flat_map};
ghost use Rattle.sv_web.specs.Exchange.{Completes};
ghost use Rattle.sv_web.specs.Page.{piece_html, price_digits, sent};

use crate::exchange::Exchange;
use crate::header::set_html;
use crate::html::add_escaped;
use crate::refusal::Refusal;
use std::alloc::{AllocError, Global};
use std::marker::Model;
use sv_servlet::Next;

/// A piece of a page. Only a text of the program itself can be markup.
#[derive(Clone, Copy, Debug)]
pub enum Piece<'a> {
    Markup(&'static str),
    /// A text that is shown, whatever is in it.
    Shown(&'a [u8]),
    /// A number, in decimal digits.
    Number(u64),
    /// An amount in cents, as units and hundredths.
    Price(u64),
}

/// A page in HTML, seen by contracts as its bytes.
#[derive(Drop)]
pub struct Page {
    bytes: Vec<u8>,
    alloc: Global,
}

impl Model for Page {
    ghost use Rattle.std.specs.Prelude.{ℕ, List};

    ghost Value = { List ℕ };

    ghost view = { λ p. p.bytes.items };
}

/// The hundredths of an amount in cents, as two digits after a point.
fn hundredths(cents: u64) -> [u8; 3]
    ensures { result ≡ price_digits cents }
{
    [
        b'.',
        b'0' + (cents / 10 % 10) as u8,
        b'0' + (cents % 10) as u8,
    ]
}

/// Adds one piece.
fn write_piece(alloc: Global, bytes: &mut Vec<u8>, piece: Piece<'_>) -> Result<(), AllocError>
    ensures { OnOk result (bytes.new.items ≡ bytes.old.items ++ piece_html piece.entry) }
{
    match piece {
        Piece::Markup(text) => bytes.extend_from_slice(text.as_bytes()),
        Piece::Shown(text) => add_escaped(bytes, text),
        Piece::Number(number) => {
            let digits = format!(in alloc; "{number}")?;
            bytes.extend_from_slice(digits.as_bytes())
        }
        Piece::Price(cents) => {
            let units = cents / 100;
            let digits = format!(in alloc; "{units}")?;
            bytes.extend_from_slice(digits.as_bytes())?;
            bytes.extend_from_slice(&hundredths(cents))
        }
    }
}

impl Page {
    /// A page with nothing on it.
    pub fn new(alloc: Global) -> Page
        ensures { result ≡ [] }
    {
        Page {
            bytes: Vec::new(alloc),
            alloc,
        }
    }

    /// The bytes of the page.
    pub fn as_bytes(&self) -> &[u8]
        ensures { result.now ≡ self.now }
    {
        self.bytes.as_slice()
    }

    /// Adds pieces, one after the other.
    pub fn write(&mut self, pieces: &[Piece<'_>]) -> Result<(), AllocError>
        ensures { OnOk result (self.new ≡ self.old ++ flat_map piece_html pieces.now) }
    {
        for piece in pieces {
            write_piece(self.alloc, &mut self.bytes, *piece)?;
        }
        Ok(())
    }
}

/// Sends a page.
#[tactic(auto, unfolding(crate::specs::Page::sent))]
pub fn send_page(web: &mut Exchange<'_>, page: &Page) -> Result<Next, Refusal>
    ensures { Completes (sent page.now) web.old web.new result }
{
    set_html(web.reply)?;
    web.reply.write(page.as_bytes())?;
    Ok(Next::Done)
}
