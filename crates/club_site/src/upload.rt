//! Lists that are sent.

ghost use Rattle.std.specs.Prelude.{◌≡◌, ◌++◌, codes, OnOk};
ghost use Rattle.std.specs.List.{flat_map};
ghost use Rattle.sv_web.specs.Exchange.{Completes};
ghost use Rattle.club_site.specs.Upload as spec;

use crate::frame::{begin, write_around};
use crate::kept::{FLASH, LIST, seen, take_flash};
use crate::language::{UPLOAD, UPLOAD_DE, say};
use std::alloc::AllocError;
use sv_servlet::Next;
use sv_web::Piece::{Markup, Shown};
use sv_web::{
    Exchange, Get, Page, Post, Refusal, csrf_token, part, send_error, send_page, send_redirect,
    set_text,
};

/// From the token of the form up to the first cell of the list.
const TABLE: &str =
    "\"><input type=file name=file required><button>OK</button></form><table><tr><td>";

/// Shows the list that was sent last as a table. A POST takes one, the file `file` of a form: lines of cells with commas between them,
/// none of them quoted.
#[derive(Clone, Copy)]
pub struct Upload;

/// Writes the cells of a list, and the end of their table.
fn write_cells(page: &mut Page, list: &[u8]) -> Result<(), AllocError>
    ensures { OnOk result (page.new ≡ (page.old ++ flat_map spec.byte_html list.now) ++ codes "</table>") }
{
    for byte in list {
        match *byte {
            b',' => page.write(&[Markup("<td>")])?,
            b'\n' => page.write(&[Markup("<tr><td>")])?,
            _ => page.write(&[Shown(&[*byte])])?,
        }
    }
    page.write(&[Markup("</table>")])
}

/// Keeps a list, and leads to the page.
#[tactic(auto, unfolding(crate::specs::Upload::keeping))]
fn keep(web: &mut Exchange<'_>, list: &[u8]) -> Result<Next, Refusal>
    ensures { Completes (spec.keeping web.old.call.now list.now) web.old web.new result }
{
    web.edit.set(LIST, Some(list))?;
    let sent = say(web.call, "Your list has arrived.", "Ihre Liste ist da.");
    set_text(web.edit, FLASH, sent)?;
    send_redirect(web.reply, "upload")?;
    Ok(Next::Done)
}

impl Get for Upload {
    ghost use Rattle.club_site.specs.Upload.{shown};

    ghost gets = { λ _. shown };

    fn get(&mut self, web: &mut Exchange<'_>) -> Result<Next, Refusal> {
        let said = take_flash(web)?;
        let token = csrf_token(web)?;
        let mut page = begin(web, "upload", said.as_slice())?;
        let form = say(web.call, UPLOAD, UPLOAD_DE);
        write_around(&mut page, form, token.as_slice(), TABLE)?;
        write_cells(&mut page, seen(web.edit, LIST))?;
        send_page(web, &page)
    }
}

impl Post for Upload {
    ghost use Rattle.club_site.specs.Upload.{taken};

    ghost posts = { λ _. taken };

    fn post(&mut self, web: &mut Exchange<'_>) -> Result<Next, Refusal> {
        match part(web.alloc, web.call, "file")? {
            Some(part) => keep(web, part.content),
            None => Ok(send_error(web.alloc, 400, "This form has no file.")?),
        }
    }
}
