//! The rows of a page: an entry for each article.

ghost use Rattle.std.specs.Prelude.{◌≡◌, ◌++◌, OnOk, option_copied};
ghost use Rattle.example_cart.specs.Pages.{add_html, change_html, cost_html, fields_html, label_html, line_html, name_html, offer_html};
ghost use Rattle.example_cart.specs.Pages.{ordered_html, price_html, row_html, rows_html, sheet_of, typed_at, value_html, wrong_of};

use crate::article::Article;
use crate::cart::{Cart, cost};
use crate::markup::{
    ADD_FAULT, ADD_FIELD, BEFORE_ADD, BEFORE_ARTICLE_NAME, BEFORE_CHANGE, BEFORE_COST,
    BEFORE_FAULT, BEFORE_FIELD, BEFORE_LABEL, BEFORE_LABEL_NAME, BEFORE_NUMBER, BEFORE_PAGE,
    BEFORE_PICTURE, BEFORE_PRICE, BEFORE_REMOVE, BEFORE_VISIT, BEHIND_ADD, BEHIND_FAULT,
    BEHIND_ORDERED, BEHIND_REMOVE, BEHIND_VALUE, CHANGE_FAULT, CHANGE_FIELD,
};
use crate::post::Mark;
use crate::shape::write_shapes;
use std::alloc::AllocError;
use sv_web::{Page, Piece};

/// What the rows of a page are.
#[derive(Clone, Copy, Debug)]
pub enum Listing {
    /// Each article, with a form that adds it to the cart.
    Offers,
    /// What is in a cart, with a form that changes it.
    Lines,
    /// What was ordered.
    Ordered,
}

/// What was typed in the form of an article, and is no quantity.
#[derive(Clone, Copy, Debug)]
pub struct Wrong<'a> {
    pub article: usize,
    pub typed: &'a str,
}

/// The rows of a page.
#[derive(Clone, Copy, Debug)]
pub struct Rows<'a> {
    pub listing: Listing,
    /// The number of the page, which its forms bring back.
    pub mark: Mark,
    pub wrong: Option<Wrong<'a>>,
}

/// An article's picture and name, up to what is said of its price.
fn write_name(page: &mut Page, article: Article) -> Result<(), AllocError>
    ensures { OnOk result (page.new ≡ page.old ++ name_html article) }
{
    page.write(&[Piece::Markup(BEFORE_PICTURE)])?;
    write_shapes(page, article.picture)?;
    page.write(&[
        Piece::Markup(BEFORE_ARTICLE_NAME),
        Piece::Shown(article.name.as_bytes()),
        Piece::Markup(BEFORE_PRICE),
    ])?;
    Ok(())
}

/// What one of an article costs.
#[tactic(auto, unfolding(crate::specs::Pages::price_html))]
fn write_price(page: &mut Page, article: Article) -> Result<(), AllocError>
    ensures { OnOk result (page.new ≡ page.old ++ price_html article) }
{
    page.write(&[Piece::Price(u64::from(article.price))])
}

/// How many of an article, and what they cost.
#[tactic(auto, unfolding(crate::specs::Pages::cost_html))]
fn write_cost(page: &mut Page, article: Article, quantity: u8) -> Result<(), AllocError>
    ensures { OnOk result (page.new ≡ page.old ++ cost_html article quantity) }
{
    page.write(&[
        Piece::Number(u64::from(quantity)),
        Piece::Markup(BEFORE_COST),
        Piece::Price(cost(article, quantity)),
    ])
}

/// The hidden fields of an article's form on a page.
#[tactic(auto, unfolding(crate::specs::Pages::fields_html))]
fn write_fields(page: &mut Page, mark: Mark, number: usize) -> Result<(), AllocError>
    ensures { OnOk result (page.new ≡ page.old ++ fields_html mark number) }
{
    page.write(&[
        Piece::Markup(BEFORE_NUMBER),
        Piece::Number(number as u64),
        Piece::Markup(BEFORE_VISIT),
        Piece::Number(mark.visit),
        Piece::Markup(BEFORE_PAGE),
        Piece::Number(u64::from(mark.page)),
    ])
}

/// The label of its quantity, up to the field.
#[tactic(auto, unfolding(crate::specs::Pages::label_html))]
fn write_label(page: &mut Page, number: usize, article: Article) -> Result<(), AllocError>
    ensures { OnOk result (page.new ≡ page.old ++ label_html number article) }
{
    page.write(&[
        Piece::Markup(BEFORE_LABEL),
        Piece::Number(number as u64),
        Piece::Markup(BEFORE_LABEL_NAME),
        Piece::Shown(article.name.as_bytes()),
        Piece::Markup(BEFORE_FIELD),
        Piece::Number(number as u64),
    ])
}

/// A quantity in its field; or what was typed there, and what is wrong with it.
#[tactic(auto, unfolding(crate::specs::Pages::value_html))]
fn write_value(
    page: &mut Page,
    field: &'static str,
    quantity: u8,
    typed: Option<&str>,
    fault: &'static str,
) -> Result<(), AllocError>
    ensures { OnOk result (page.new ≡ page.old ++ value_html field.now quantity (option_copied typed.entry) fault.now) }
{
    match typed {
        Some(typed) => page.write(&[
            Piece::Markup(field),
            Piece::Shown(typed.as_bytes()),
            Piece::Markup(BEFORE_FAULT),
            Piece::Markup(fault),
            Piece::Markup(BEHIND_FAULT),
        ]),
        None => page.write(&[
            Piece::Markup(field),
            Piece::Number(u64::from(quantity)),
            Piece::Markup(BEHIND_VALUE),
        ]),
    }
}

/// The button that adds an article.
#[tactic(auto, unfolding(crate::specs::Pages::add_html))]
fn write_add(page: &mut Page, article: Article) -> Result<(), AllocError>
    ensures { OnOk result (page.new ≡ page.old ++ add_html article) }
{
    page.write(&[
        Piece::Markup(BEFORE_ADD),
        Piece::Shown(article.name.as_bytes()),
        Piece::Markup(BEHIND_ADD),
    ])
}

/// The buttons that change an article's quantity, and remove it.
#[tactic(auto, unfolding(crate::specs::Pages::change_html))]
fn write_change(page: &mut Page, article: Article) -> Result<(), AllocError>
    ensures { OnOk result (page.new ≡ page.old ++ change_html article) }
{
    page.write(&[
        Piece::Markup(BEFORE_CHANGE),
        Piece::Shown(article.name.as_bytes()),
        Piece::Markup(BEFORE_REMOVE),
        Piece::Shown(article.name.as_bytes()),
        Piece::Markup(BEHIND_REMOVE),
    ])
}

/// An article of the catalogue.
fn write_offer(
    page: &mut Page,
    mark: Mark,
    number: usize,
    article: Article,
    typed: Option<&str>,
) -> Result<(), AllocError>
    ensures { OnOk result (page.new ≡ page.old ++ offer_html mark number article (option_copied typed.entry)) }
{
    write_name(page, article)?;
    write_price(page, article)?;
    write_fields(page, mark, number)?;
    write_label(page, number, article)?;
    write_value(page, ADD_FIELD, 1, typed, ADD_FAULT)?;
    write_add(page, article)?;
    Ok(())
}

/// A line of the cart.
fn write_line(
    page: &mut Page,
    mark: Mark,
    number: usize,
    article: Article,
    quantity: u8,
    typed: Option<&str>,
) -> Result<(), AllocError>
    ensures { OnOk result (page.new ≡ page.old ++ line_html mark number article quantity (option_copied typed.entry)) }
{
    write_name(page, article)?;
    write_cost(page, article, quantity)?;
    write_fields(page, mark, number)?;
    write_label(page, number, article)?;
    write_value(page, CHANGE_FIELD, quantity, typed, CHANGE_FAULT)?;
    write_change(page, article)?;
    Ok(())
}

/// A line of an order.
fn write_ordered(page: &mut Page, article: Article, quantity: u8) -> Result<(), AllocError>
    ensures { OnOk result (page.new ≡ page.old ++ ordered_html article quantity) }
{
    write_name(page, article)?;
    write_cost(page, article, quantity)?;
    page.write(&[Piece::Markup(BEHIND_ORDERED)])?;
    Ok(())
}

/// What was typed in the form of an article.
fn typed_at<'a>(wrong: Option<Wrong<'a>>, article: usize) -> Option<&'a str>
    ensures { option_copied result ≡ typed_at (wrong_of wrong.entry) article }
{
    match wrong {
        Some(wrong) if wrong.article == article => Some(wrong.typed),
        _ => None,
    }
}

/// An article's entry. Of what a cart or an order has none, there is no line.
fn write_row(
    page: &mut Page,
    rows: Rows<'_>,
    number: usize,
    article: Article,
    quantity: u8,
) -> Result<(), AllocError>
    ensures { OnOk result (page.new ≡ page.old ++ row_html (sheet_of rows.entry) number article quantity) }
{
    let typed = typed_at(rows.wrong, number);
    match rows.listing {
        Listing::Offers => write_offer(page, rows.mark, number, article, typed),
        Listing::Lines if quantity > 0 => {
            write_line(page, rows.mark, number, article, quantity, typed)
        }
        Listing::Ordered if quantity > 0 => write_ordered(page, article, quantity),
        Listing::Lines | Listing::Ordered => Ok(()),
    }
}

/// The entries of articles and their quantities, in order.
fn write_each(
    page: &mut Page,
    rows: Rows<'_>,
    articles: &[Article],
    quantities: &[u8],
) -> Result<(), AllocError>
    ensures { OnOk result (page.new ≡ page.old ++ rows_html (sheet_of rows.entry) 0 articles.now quantities.now) }
{
    let count = articles.len().min(quantities.len());
    for at in 0..count {
        write_row(page, rows, at, articles[at], quantities[at])?;
    }
    Ok(())
}

/// The entries of all articles, by a cart.
pub fn write_rows(
    page: &mut Page,
    rows: Rows<'_>,
    articles: &[Article],
    cart: &Cart,
) -> Result<(), AllocError>
    ensures { OnOk result (page.new ≡ page.old ++ rows_html (sheet_of rows.entry) 0 articles.now cart.now) }
{
    write_each(page, rows, articles, cart.as_slice())
}
