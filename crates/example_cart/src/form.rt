//! Forms as they are sent, by the texts of their fields.

ghost use Rattle.std.specs.Prelude.{◌≡◌};
ghost use Rattle.example_cart.specs.Form as spec;
ghost use Rattle.example_cart.specs.Form.{number_between, sent_in};

use crate::post::{Change, Mark, Post};
use crate::rows::Listing;
use sv_web::read_u64;

/// What a form of an article asks for.
#[derive(Clone, Copy, Debug)]
pub enum Sent {
    Asks(Post),
    /// A quantity that is none, in the form of an article on the page of a listing.
    Wrong { listing: Listing, article: u8 },
    /// It is no form of the shop's.
    NotOurs,
}

/// The number, where it is one from the least to the most.
pub fn read_between(text: &str, least: u64, most: u64) -> Option<u64>
    ensures { result ≡ number_between least most text.now }
{
    match read_u64(text) {
        Some(number) if number >= least && number <= most => Some(number),
        _ => None,
    }
}

/// The form of the catalogue, which adds from 1 to 99 of an article.
fn read_add(mark: Mark, article: u8, quantity: &str) -> Sent
    ensures { result ≡ spec.sent_add mark article (number_between 1 99 quantity.now) }
{
    match read_between(quantity, 1, 99) {
        Some(more) => Sent::Asks(Post {
            mark,
            article,
            change: Change::Add(more as u8),
        }),
        None => Sent::Wrong {
            listing: Listing::Offers,
            article,
        },
    }
}

/// The form of the cart, which leaves from 0 to 99 of an article.
fn read_put(mark: Mark, article: u8, quantity: &str) -> Sent
    ensures { result ≡ spec.sent_put mark article (number_between 0 99 quantity.now) }
{
    match read_between(quantity, 0, 99) {
        Some(all) => Sent::Asks(Post {
            mark,
            article,
            change: Change::Put(all as u8),
        }),
        None => Sent::Wrong {
            listing: Listing::Lines,
            article,
        },
    }
}

/// The form of an article on a page, by the word of its button.
fn read_change(mark: Mark, article: u8, word: &str, quantity: &str) -> Sent
    ensures { result ≡ spec.sent_of mark article word.now quantity.now }
{
    match word {
        "add" => read_add(mark, article, quantity),
        "change" => read_put(mark, article, quantity),
        "remove" => Sent::Asks(Post {
            mark,
            article,
            change: Change::Remove,
        }),
        _ => Sent::NotOurs,
    }
}

/// The form of an article by its fields: the article's number, the two numbers of the page, what is to be done (`add`, `change` or
/// `remove`), and the quantity, which a removal needs none of.
pub fn read_sent(article: &str, visit: &str, page: &str, word: &str, quantity: &str) -> Sent
    ensures { result ≡ sent_in article.now visit.now page.now word.now quantity.now }
{
    let Some(article) = read_between(article, 0, 9) else {
        return Sent::NotOurs;
    };
    let Some(visit) = read_u64(visit) else {
        return Sent::NotOurs;
    };
    let Some(page) = read_between(page, 0, 4_294_967_295) else {
        return Sent::NotOurs;
    };
    let mark = Mark {
        visit,
        page: page as u32,
    };
    read_change(mark, article as u8, word, quantity)
}
