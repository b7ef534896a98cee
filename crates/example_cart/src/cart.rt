//! A cart.

ghost use Rattle.std.specs.Prelude.{◌≡◌, ◌≤◌, ◌^◌, IfOk, length};
ghost use Rattle.example_cart.specs.Cart as spec;
ghost use Rattle.example_cart.specs.Cart.{count, is_empty, made, new_cart, total};

use crate::article::Article;
use crate::post::Post;
use std::alloc::{AllocError, Global};
use std::marker::Model;

/// How many articles a cart has a quantity of.
pub const ROWS: usize = 10;

/// A cart, seen by contracts as the list of its quantities, one for each article in the order of the catalogue.
#[derive(Drop)]
pub struct Cart {
    quantities: Vec<u8>,
}

impl Model for Cart {
    ghost use Rattle.std.specs.Prelude.{◌≡◌, ℕ, List, length};

    ghost Value = { List ℕ };

    ghost view = { λ c. c.quantities.items };

    ghost invariant = { λ c. length c.quantities.items ≡ 10 };
}

/// What so many of an article cost, in cents.
pub fn cost(article: Article, quantity: u8) -> u64
    ensures cost { result ≡ spec.cost (article, quantity) }
    ensures small { result ≤ 2 ^ 40 }
{
    u64::from(article.price) * u64::from(quantity)
}

/// What so many of each article cost, in cents.
fn total_of(articles: &[Article], quantities: &[u8]) -> u64
    requires { length quantities.now ≡ 10 }
    ensures { result ≡ total articles.now quantities.now }
{
    let count = articles.len().min(quantities.len());
    let mut total = 0;
    for at in 0..count {
        total += cost(articles[at], quantities[at]);
    }
    total
}

/// The sum of quantities.
fn count_of(quantities: &[u8]) -> u64
    requires { length quantities.now ≡ 10 }
    ensures { result ≡ count quantities.now }
{
    let mut count = 0;
    for quantity in quantities {
        count += u64::from(*quantity);
    }
    count
}

impl Cart {
    /// The cart of these quantities.
    pub fn of_quantities(quantities: Vec<u8>) -> Cart
        requires { length quantities.items ≡ 10 }
        ensures { result ≡ quantities.items }
    {
        Cart { quantities }
    }

    /// A cart with nothing in it.
    pub fn new(alloc: Global) -> Result<Cart, AllocError>
        ensures { IfOk result (λ cart. cart ≡ new_cart) }
    {
        let quantities = vec![in alloc; 0; ROWS]?;
        Ok(Cart { quantities })
    }

    /// The quantities; a byte each is also how a cart is kept.
    pub fn as_slice(&self) -> &[u8]
        ensures quantities { result.now ≡ self.now }
        ensures ten { length self.now ≡ 10 }
    {
        self.quantities.as_slice()
    }

    /// How many of an article there are; 0 where the shop has no such article.
    pub fn quantity(&self, article: u8) -> u8
        ensures { result ≡ spec.quantity self.now article }
    {
        match self.quantities.get(usize::from(article)) {
            Some(quantity) => *quantity,
            None => 0,
        }
    }

    /// Makes the change that a form asks for.
    pub fn change(&mut self, post: Post)
        ensures { self.new ≡ made self.old post }
    {
        let article = usize::from(post.article);
        if let Some(&quantity) = self.quantities.get(article) {
            self.quantities[article] = post.change.of(quantity);
        }
    }

    /// What is in it costs, in cents.
    pub fn total(&self, articles: &[Article]) -> u64
        ensures { result ≡ total articles.now self.now }
    {
        total_of(articles, self.quantities.as_slice())
    }

    /// How many articles are in it.
    pub fn count(&self) -> u64
        ensures { result ≡ count self.now }
    {
        count_of(self.quantities.as_slice())
    }

    /// There is nothing in it.
    pub fn is_empty(&self) -> bool
        ensures { result ≡ is_empty self.now }
    {
        self.quantities.iter().all(|quantity| *quantity == 0)
    }
}
