//! The cart of a small web shop, and its pages: plain values, and the HTML that shows them.
//!
//! Of what servlets are made of it takes pages and numerals alone, so it knows neither requests nor sessions. A [`Cart`] changes by
//! [`Post`]s, and [`Forms`] remember which of them have counted, so that each counts once.
#![tactic(auto)]

mod article;
mod cart;
mod form;
mod forms;
mod kept;
pub mod laws;
mod markup;
mod notice;
mod order;
mod pages;
mod pictures;
mod post;
mod rows;
mod shape;
mod style;
mod visit;

pub use article::{ARTICLES, Article};
pub use cart::{Cart, ROWS};
pub use form::{Sent, read_between, read_sent};
pub use forms::{FORM_LIMIT, Forms, Standing, take_post};
pub use kept::{kept_forms, kept_visit, read_cart, read_forms, read_visit};
pub use notice::{Notice, Said};
pub use order::{Order, is_ordered, kept_order, read_order};
pub use pages::{Beside, Frame, cart_page, catalogue_page, error_page, goodbye_page, order_page};
pub use pictures::ICON;
pub use post::{Change, Mark, Post, QUANTITY_LIMIT};
pub use rows::{Listing, Wrong};
pub use style::STYLE;
pub use visit::Visit;
