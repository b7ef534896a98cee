//! What a shopper is told of the last form.

ghost use Rattle.std.specs.Prelude.{◌≡◌, option_copied};
ghost use Rattle.example_cart.specs.Notice as spec;
ghost use Rattle.example_cart.specs.Notice.{kept_notice, not_ordered, notice_in, noticed};

use crate::forms::Standing;
use crate::post::{Change, Post, QUANTITY_LIMIT};

/// What is said.
#[derive(Clone, Copy, Debug)]
pub enum Said {
    /// So many were added.
    Added,
    /// So many were added, up to the limit.
    Full,
    /// So many are in the cart.
    Changed,
    /// The form had counted before.
    Again,
    /// The form is too old.
    Outdated,
    /// The order had been placed before.
    NotOrdered,
}

/// What is said of an article, and whether the cart is a new one because the session of the form had ended.
#[derive(Clone, Copy, Debug)]
pub struct Notice {
    pub said: Said,
    /// 255 where it is of no article.
    pub article: u8,
    pub quantity: u8,
    pub is_new: bool,
}

/// Of a change that is made, from so many before.
fn said_of(before: u8, change: Change) -> Said
    ensures { result ≡ spec.said_of before change }
{
    match change {
        Change::Add(more) if u16::from(before) + u16::from(more) > u16::from(QUANTITY_LIMIT) => {
            Said::Full
        }
        Change::Add(_) => Said::Added,
        Change::Put(_) | Change::Remove => Said::Changed,
    }
}

impl Said {
    /// As a number.
    fn code(self) -> u8
        ensures { result ≡ spec.code self }
    {
        match self {
            Said::Added => 0,
            Said::Full => 1,
            Said::Changed => 2,
            Said::Again => 3,
            Said::Outdated => 4,
            Said::NotOrdered => 5,
        }
    }

    /// By its number.
    fn of_code(code: u8) -> Said
        ensures { result ≡ spec.said_in code }
    {
        match code {
            0 => Said::Added,
            1 => Said::Full,
            2 => Said::Changed,
            3 => Said::Again,
            4 => Said::Outdated,
            _ => Said::NotOrdered,
        }
    }
}

impl Notice {
    /// Of a form, by how it stands; `before` is how many of its article there were.
    pub fn of_post(standing: Standing, before: u8, post: Post, is_new: bool) -> Notice
        ensures { result ≡ noticed standing before post is_new }
    {
        let said = match standing {
            Standing::Counts => said_of(before, post.change),
            Standing::Repeated => Said::Again,
            Standing::TooOld => Said::Outdated,
        };
        Notice {
            said,
            article: post.article,
            quantity: post.change.amount(),
            is_new,
        }
    }

    /// Of an order's form that orders nothing.
    pub fn not_ordered() -> Notice
        ensures { result ≡ not_ordered }
    {
        Notice {
            said: Said::NotOrdered,
            article: 255,
            quantity: 0,
            is_new: false,
        }
    }

    /// Four bytes, for an attribute of a session.
    pub fn kept(self) -> [u8; 4]
        ensures { result ≡ kept_notice self }
    {
        let is_new = if self.is_new { 1 } else { 0 };
        [self.said.code(), self.article, self.quantity, is_new]
    }

    /// The notice of some bytes; none where there are none, or they are none of a notice.
    pub fn read(bytes: Option<&[u8]>) -> Option<Notice>
        ensures { result ≡ notice_in (option_copied bytes.entry) }
    {
        match bytes {
            Some(bytes) if bytes.len() == 4 => Some(Notice {
                said: Said::of_code(bytes[0]),
                article: bytes[1],
                quantity: bytes[2],
                is_new: bytes[3] == 1,
            }),
            _ => None,
        }
    }
}
