//! The servlets of a small web shop, with a filter and a listener, as their author writes them.
//!
//! Stands on the cart and its pages, and on what servlets are lent. Of a session they keep six attributes: the cart, the forms that
//! have counted, what is to be said of the last one, the last order, the name of whoever has logged in, and the pages that were
//! shown. Where the edit or the reply refuses a call, the error page of 500 follows, with the fault's name.
#![tactic(auto)]

mod basket;
mod catalogue;
mod checkout;
mod error;
mod guard;
mod kept;
pub mod laws;
mod login;
mod logout;
mod orders;
mod sent;
mod still;
mod store;
mod told;
mod visits;

pub use basket::Basket;
pub use catalogue::Catalogue;
pub use checkout::Checkout;
pub use error::ErrorPage;
pub use guard::Guard;
pub use login::Login;
pub use logout::Logout;
pub use orders::Orders;
pub use still::{Kind, Still};
pub use store::Store;
