//! The pages of the shop.

ghost use Rattle.std.specs.Prelude.{◌≡◌, ◌++◌, IfOk, OnOk, option_copied};
ghost use Rattle.example_cart.specs.Pages as spec;
ghost use Rattle.example_cart.specs.Pages.{around_of, wrong_of};

use crate::article::Article;
use crate::cart::Cart;
use crate::markup::{
    ADDED, AGAIN, ANEW, AT_MOST, BEFORE_BASE, BEFORE_CHECKOUT, BEFORE_CODE, BEFORE_COUNT,
    BEFORE_HEADING, BEFORE_KEY, BEFORE_LOGIN, BEFORE_MESSAGE, BEFORE_MOVES, BEFORE_NAME,
    BEFORE_NODE, BEFORE_ORDER, BEFORE_SAID, BEFORE_SKIP, BEFORE_TITLE, BEFORE_TOTAL,
    BEHIND_CHECKOUT, BEHIND_COUNT, BEHIND_NAME, BEHIND_ORDER, BEHIND_ORDER_TOTAL, BEHIND_SAID,
    BEHIND_VALUE, CART, CATALOGUE, CHANGED, END, GOODBYE, LINES, LINES_END, LOGIN_FIELDS, NEW_CART,
    NO_ORDER, NOT_ORDERED, NOTHING, OUTDATED, STOP, TIMES, WAYS,
};
use crate::notice::{Notice, Said};
use crate::order::Order;
use crate::post::Mark;
use crate::rows::{Listing, Rows, Wrong, write_rows};
use std::alloc::{AllocError, Global};
use sv_web::{Page, Piece};

/// What stands round every page.
#[derive(Clone, Copy, Debug)]
pub struct Frame<'a> {
    /// The path of the shop's context.
    pub base: &'a str,
    /// The name of whoever has logged in.
    pub name: Option<&'a [u8]>,
    /// How many articles are in the cart.
    pub count: u64,
    /// The number of this page.
    pub mark: Mark,
    /// The node that answers.
    pub node: u8,
    /// How often the session has moved between nodes.
    pub moves: u32,
}

/// The form to log in with. In a session the number of its page is its key, so that a form that is sent twice is one login.
#[tactic(auto, unfolding(crate::specs::Pages::login_html))]
fn write_login(page: &mut Page, mark: Mark) -> Result<(), AllocError>
    ensures { OnOk result (page.new ≡ page.old ++ spec.login_html mark) }
{
    if mark.visit == 0 {
        return page.write(&[Piece::Markup(BEFORE_LOGIN), Piece::Markup(LOGIN_FIELDS)]);
    }
    page.write(&[
        Piece::Markup(BEFORE_LOGIN),
        Piece::Markup(BEFORE_KEY),
        Piece::Number(mark.visit),
        Piece::Markup(STOP),
        Piece::Number(u64::from(mark.page)),
        Piece::Markup(BEHIND_VALUE),
        Piece::Markup(LOGIN_FIELDS),
    ])
}

/// A welcome by name, and the form to log out with; or the form to log in with.
#[tactic(auto, unfolding(crate::specs::Pages::greeting))]
fn write_greeting(page: &mut Page, mark: Mark, name: Option<&[u8]>) -> Result<(), AllocError>
    ensures { OnOk result (page.new ≡ page.old ++ spec.greeting mark (option_copied name.entry)) }
{
    match name {
        Some(name) => page.write(&[
            Piece::Markup(BEFORE_NAME),
            Piece::Shown(name),
            Piece::Markup(BEHIND_NAME),
        ]),
        None => write_login(page, mark),
    }
}

/// The base of the links, and the title.
#[tactic(auto, unfolding(crate::specs::Pages::title_html))]
fn write_title<'a>(page: &mut Page, base: &'a str, title: &'a str) -> Result<(), AllocError>
    ensures { OnOk result (page.new ≡ page.old ++ spec.title_html base.now title.now) }
{
    page.write(&[
        Piece::Markup(BEFORE_BASE),
        Piece::Shown(base.as_bytes()),
        Piece::Markup(BEFORE_TITLE),
        Piece::Shown(title.as_bytes()),
    ])
}

/// The page whose content is skipped to, and how many articles are in the cart.
#[tactic(auto, unfolding(crate::specs::Pages::links_html))]
fn write_links(page: &mut Page, here: &str, count: u64) -> Result<(), AllocError>
    ensures { OnOk result (page.new ≡ page.old ++ spec.links_html here.now count) }
{
    page.write(&[
        Piece::Markup(BEFORE_SKIP),
        Piece::Shown(here.as_bytes()),
        Piece::Markup(BEFORE_COUNT),
        Piece::Number(count),
        Piece::Markup(BEHIND_COUNT),
    ])
}

/// Everything before the page's own part. `here` is the path of the page.
fn write_head<'a>(
    page: &mut Page,
    frame: Frame<'a>,
    title: &'a str,
    here: &'a str,
) -> Result<(), AllocError>
    ensures { OnOk result (page.new ≡ page.old ++ spec.head (around_of frame.entry) title.now here.now) }
{
    write_title(page, frame.base, title)?;
    write_links(page, here, frame.count)?;
    write_greeting(page, frame.mark, frame.name)?;
    Ok(())
}

/// Everything after it.
#[tactic(auto, unfolding(crate::specs::Pages::foot))]
fn write_foot(page: &mut Page, frame: Frame<'_>) -> Result<(), AllocError>
    ensures { OnOk result (page.new ≡ page.old ++ spec.foot (around_of frame.entry)) }
{
    page.write(&[
        Piece::Markup(BEFORE_NODE),
        Piece::Number(u64::from(frame.node)),
        Piece::Markup(BEFORE_MOVES),
        Piece::Number(u64::from(frame.moves)),
        Piece::Markup(END),
    ])
}

/// Where the catalogue stands: under its own name, or as the answer to a form of the cart's.
fn catalogue_path(wrong: Option<Wrong<'_>>) -> &'static str
    ensures { result.now ≡ spec.catalogue_path (wrong_of wrong.entry) }
{
    match wrong {
        Some(_) => "cart",
        None => "catalogue",
    }
}

/// The catalogue: each article with a form that adds it to the cart. `wrong` is what was typed in one of the forms and is no
/// quantity: it stands there again.
pub fn catalogue_page(
    alloc: Global,
    frame: Frame<'_>,
    articles: &[Article],
    cart: &Cart,
    wrong: Option<Wrong<'_>>,
) -> Result<Page, AllocError>
    ensures { IfOk result (λ page. page ≡ spec.catalogue_page (around_of frame.entry) articles.now cart.now (wrong_of wrong.entry)) }
{
    let rows = Rows {
        listing: Listing::Offers,
        mark: frame.mark,
        wrong,
    };
    let mut page = Page::new(alloc);
    write_head(&mut page, frame, "Catalogue", catalogue_path(wrong))?;
    page.write(&[Piece::Markup(CATALOGUE)])?;
    write_rows(&mut page, rows, articles, cart)?;
    page.write(&[Piece::Markup(LINES_END)])?;
    write_foot(&mut page, frame)?;
    Ok(page)
}

/// A total in cents, and the form that orders.
#[tactic(auto, unfolding(crate::specs::Pages::checkout_html))]
fn write_checkout(page: &mut Page, cents: u64, form: u16) -> Result<(), AllocError>
    ensures { OnOk result (page.new ≡ page.old ++ spec.checkout_html cents form) }
{
    page.write(&[
        Piece::Markup(BEFORE_TOTAL),
        Piece::Price(cents),
        Piece::Markup(BEFORE_CHECKOUT),
        Piece::Number(u64::from(form)),
        Piece::Markup(BEHIND_CHECKOUT),
    ])
}

/// What is in the cart, what it costs, and the form that orders it.
fn write_lines(
    page: &mut Page,
    mark: Mark,
    articles: &[Article],
    cart: &Cart,
    wrong: Option<Wrong<'_>>,
    form: u16,
) -> Result<(), AllocError>
    ensures { OnOk result (page.new ≡ page.old ++ spec.lines mark articles.now cart.now (wrong_of wrong.entry) form) }
{
    let rows = Rows {
        listing: Listing::Lines,
        mark,
        wrong,
    };
    page.write(&[Piece::Markup(LINES)])?;
    write_rows(page, rows, articles, cart)?;
    write_checkout(page, cart.total(articles), form)?;
    Ok(())
}

/// The lines of a cart, or that there are none.
fn write_cart(
    page: &mut Page,
    mark: Mark,
    articles: &[Article],
    cart: &Cart,
    wrong: Option<Wrong<'_>>,
    form: u16,
) -> Result<(), AllocError>
    ensures { OnOk result (page.new ≡ page.old ++ spec.cart_html mark articles.now cart.now (wrong_of wrong.entry) form) }
{
    if cart.is_empty() {
        return page.write(&[Piece::Markup(NOTHING)]);
    }
    write_lines(page, mark, articles, cart, wrong, form)
}

/// What is said before the article of a notice.
fn before_said(said: Said) -> &'static str
    ensures { result.now ≡ spec.before_said said }
{
    match said {
        Said::Added | Said::Full => ADDED,
        Said::Changed => CHANGED,
        Said::Again => AGAIN,
        Said::Outdated => OUTDATED,
        Said::NotOrdered => NOT_ORDERED,
    }
}

/// What is said after it.
fn behind_said(said: Said) -> &'static str
    ensures { result.now ≡ spec.behind_said said }
{
    match said {
        Said::Added | Said::Changed | Said::Again => STOP,
        Said::Full => AT_MOST,
        Said::Outdated => ANEW,
        Said::NotOrdered => "",
    }
}

/// That the cart is a new one.
fn new_html(is_new: bool) -> &'static str
    ensures { result.now ≡ spec.new_html is_new }
{
    if is_new { NEW_CART } else { "" }
}

/// So many of an article, and what is said of it.
#[tactic(auto, unfolding(crate::specs::Pages::said_html))]
fn write_said(page: &mut Page, notice: Notice, article: Option<&Article>) -> Result<(), AllocError>
    ensures { OnOk result (page.new ≡ page.old ++ spec.said_html notice (option_copied article.entry)) }
{
    match article {
        Some(article) => page.write(&[
            Piece::Markup(BEFORE_SAID),
            Piece::Markup(new_html(notice.is_new)),
            Piece::Markup(before_said(notice.said)),
            Piece::Number(u64::from(notice.quantity)),
            Piece::Markup(TIMES),
            Piece::Shown(article.name.as_bytes()),
            Piece::Markup(behind_said(notice.said)),
            Piece::Markup(BEHIND_SAID),
        ]),
        None => page.write(&[
            Piece::Markup(BEFORE_SAID),
            Piece::Markup(new_html(notice.is_new)),
            Piece::Markup(before_said(notice.said)),
            Piece::Markup(BEHIND_SAID),
        ]),
    }
}

/// What is said of the last form, where there is something to say.
fn write_notice(
    page: &mut Page,
    articles: &[Article],
    notice: Option<Notice>,
) -> Result<(), AllocError>
    ensures { OnOk result (page.new ≡ page.old ++ spec.notice_html articles.now notice) }
{
    match notice {
        Some(notice) => write_said(page, notice, articles.get(usize::from(notice.article))),
        None => Ok(()),
    }
}

/// What a page shows of a cart beside the cart itself.
#[derive(Clone, Copy, Debug)]
pub struct Beside<'a> {
    /// What is said of the last form.
    pub notice: Option<Notice>,
    /// What was typed in one of the forms and is no quantity: it stands there again.
    pub wrong: Option<Wrong<'a>>,
    /// The number of the next order's form.
    pub form: u16,
}

/// The cart.
pub fn cart_page(
    alloc: Global,
    frame: Frame<'_>,
    articles: &[Article],
    cart: &Cart,
    beside: Beside<'_>,
) -> Result<Page, AllocError>
    ensures { IfOk result (λ page. page ≡ spec.cart_page (around_of frame.entry) articles.now cart.now beside.entry.notice
        (wrong_of beside.entry.wrong) beside.entry.form) }
{
    let mut page = Page::new(alloc);
    write_head(&mut page, frame, "Your cart", "cart")?;
    page.write(&[Piece::Markup(CART)])?;
    write_notice(&mut page, articles, beside.notice)?;
    write_cart(
        &mut page,
        frame.mark,
        articles,
        cart,
        beside.wrong,
        beside.form,
    )?;
    write_foot(&mut page, frame)?;
    Ok(page)
}

/// An order's number.
#[tactic(auto, unfolding(crate::specs::Pages::number_html))]
fn write_number(page: &mut Page, number: u16) -> Result<(), AllocError>
    ensures { OnOk result (page.new ≡ page.old ++ spec.number_html number) }
{
    page.write(&[
        Piece::Markup(BEFORE_ORDER),
        Piece::Number(u64::from(number)),
        Piece::Markup(BEHIND_ORDER),
    ])
}

/// A total in cents.
#[tactic(auto, unfolding(crate::specs::Pages::sum_html))]
fn write_sum(page: &mut Page, cents: u64) -> Result<(), AllocError>
    ensures { OnOk result (page.new ≡ page.old ++ spec.sum_html cents) }
{
    page.write(&[
        Piece::Markup(BEFORE_TOTAL),
        Piece::Price(cents),
        Piece::Markup(BEHIND_ORDER_TOTAL),
    ])
}

/// An order's number, its lines and what they cost.
fn write_ordered(
    page: &mut Page,
    mark: Mark,
    articles: &[Article],
    order: &Order,
) -> Result<(), AllocError>
    ensures { OnOk result (page.new ≡ page.old ++ spec.ordered mark articles.now order.now) }
{
    let rows = Rows {
        listing: Listing::Ordered,
        mark,
        wrong: None,
    };
    write_number(page, order.number)?;
    write_rows(page, rows, articles, &order.cart)?;
    write_sum(page, order.cart.total(articles))?;
    Ok(())
}

/// An order, or that there was none.
fn write_order(
    page: &mut Page,
    mark: Mark,
    articles: &[Article],
    order: &Order,
) -> Result<(), AllocError>
    ensures { OnOk result (page.new ≡ page.old ++ spec.order_html mark articles.now order.now) }
{
    if order.number == 0 {
        return page.write(&[Piece::Markup(NO_ORDER)]);
    }
    write_ordered(page, mark, articles, order)
}

/// The last order: its number, what was ordered, and what comes next.
pub fn order_page(
    alloc: Global,
    frame: Frame<'_>,
    articles: &[Article],
    order: &Order,
) -> Result<Page, AllocError>
    ensures { IfOk result (λ page. page ≡ spec.order_page (around_of frame.entry) articles.now order.now) }
{
    let mut page = Page::new(alloc);
    write_head(&mut page, frame, "Your order", "checkout")?;
    write_order(&mut page, frame.mark, articles, order)?;
    write_foot(&mut page, frame)?;
    Ok(page)
}

/// What went wrong, what is said of it, and the status.
#[tactic(auto, unfolding(crate::specs::Pages::error_html))]
fn write_error<'a>(
    page: &mut Page,
    title: &'a str,
    message: &'a str,
    code: &'a str,
) -> Result<(), AllocError>
    ensures { OnOk result (page.new ≡ page.old ++ spec.error_html title.now message.now code.now) }
{
    page.write(&[
        Piece::Markup(BEFORE_HEADING),
        Piece::Shown(title.as_bytes()),
        Piece::Markup(BEFORE_MESSAGE),
        Piece::Shown(message.as_bytes()),
        Piece::Markup(BEFORE_CODE),
        Piece::Shown(code.as_bytes()),
        Piece::Markup(WAYS),
    ])
}

/// The page of an error: what went wrong, what is said of it, its status, and where to go from there.
pub fn error_page<'a>(
    alloc: Global,
    frame: Frame<'a>,
    title: &'a str,
    message: &'a str,
    code: &'a str,
) -> Result<Page, AllocError>
    ensures { IfOk result (λ page. page ≡ spec.error_page (around_of frame.entry) title.now message.now code.now) }
{
    let mut page = Page::new(alloc);
    write_head(&mut page, frame, title, "catalogue")?;
    write_error(&mut page, title, message, code)?;
    write_foot(&mut page, frame)?;
    Ok(page)
}

/// What whoever has logged out is shown.
pub fn goodbye_page(alloc: Global, frame: Frame<'_>) -> Result<Page, AllocError>
    ensures { IfOk result (λ page. page ≡ spec.goodbye_page (around_of frame.entry)) }
{
    let mut page = Page::new(alloc);
    write_head(&mut page, frame, "Logged out", "logout")?;
    page.write(&[Piece::Markup(GOODBYE)])?;
    write_foot(&mut page, frame)?;
    Ok(page)
}
