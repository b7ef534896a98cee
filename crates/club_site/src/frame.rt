//! What stands above each page.

ghost use Rattle.std.specs.Prelude.{◌≡◌, ◌++◌, IfOk, OnOk};
ghost use Rattle.club_site.specs.Frame as spec;

use crate::language::{LINKS, LINKS_DE, say};
use std::alloc::AllocError;
use sv_web::Piece::{Markup, Shown};
use sv_web::{Exchange, Page};

/// Begins the page of a name, up to the text that it says first.
#[tactic(auto, unfolding(crate::specs::Frame::begun))]
pub fn begin<'a>(
    web: &'a Exchange<'a>,
    here: &'static str,
    said: &'a [u8],
) -> Result<Page, AllocError>
    ensures { IfOk result (λ page. page ≡ spec.begun web.now.call.now here.now said.now) }
{
    let call = web.call;
    let mut page = Page::new(web.alloc);
    page.write(&[
        Markup("<!DOCTYPE html><meta charset=utf-8><title>Tennis</title><base href=\""),
        Shown(call.context_path.as_bytes()),
        Markup(say(call, LINKS, LINKS_DE)),
        Markup(here),
        Markup("\">English / Deutsch</a></nav><p role=status>"),
        Shown(said),
    ])?;
    Ok(page)
}

/// Writes a text that a form has, with the markup before it and after it.
#[tactic(auto, unfolding(crate::specs::Frame::around))]
pub fn write_around(
    page: &mut Page,
    before: &'static str,
    text: &[u8],
    behind: &'static str,
) -> Result<(), AllocError>
    ensures { OnOk result (page.new ≡ page.old ++ spec.around before.now text.now behind.now) }
{
    page.write(&[Markup(before), Shown(text), Markup(behind)])
}
