//! What the shop is told by a request.

ghost use Rattle.std.specs.Prelude.{◌≡◌, option_copied};
ghost use Rattle.example_servlets.specs.Told as spec;
ghost use Rattle.example_servlets.specs.Told.{text};

use example_cart::{Sent, read_between, read_sent};
use sv_model::Param;
use sv_web::parameter;

/// The value of the first parameter of a name, or an empty text.
pub fn text<'a>(params: &'a [Param], name: &str) -> &'a str
    ensures { result.now ≡ text params.now name.now }
{
    parameter(params, name).unwrap_or("")
}

/// The form of an article.
pub fn sent_of(params: &[Param]) -> Sent
    ensures { result ≡ spec.sent_of params.now }
{
    let article = text(params, "article");
    let visit = text(params, "visit");
    let page = text(params, "page");
    read_sent(
        article,
        visit,
        page,
        text(params, "do"),
        text(params, "quantity"),
    )
}

/// The number of an order's form.
pub fn order_form(params: &[Param]) -> Option<u16>
    ensures { result ≡ spec.order_form params.now }
{
    match read_between(text(params, "form"), 0, 65_535) {
        Some(form) => Some(form as u16),
        None => None,
    }
}

/// Blanks alone, and control characters.
fn is_blank(name: &str) -> bool
    ensures { result ≡ spec.is_blank name.now }
{
    name.as_bytes().iter().all(|byte| *byte <= 32)
}

/// The name that a form has: not blank, and of 192 bytes at most. The 64 letters that a browser lets somebody type have no more.
pub fn name_of(params: &[Param]) -> Option<&str>
    ensures { option_copied result ≡ spec.name_of params.now }
{
    match parameter(params, "name") {
        Some(name) if !is_blank(name) && name.len() <= 192 => Some(name),
        _ => None,
    }
}
