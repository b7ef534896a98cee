//! What authors of servlets and filters share.
//!
//! Stands on servlets, filters and the session's edit. The meaning of a servlet is here its work (`specs/Work.antt`): calls of the
//! edit and the reply, one after the other, each with what follows where it is refused. Whatever is put together of such calls goes
//! on with what was lent, so an author owes nothing but that the code does the work. Nothing here knows contexts or mappings.
#![tactic(auto)]

mod attributes;
mod cookies;
mod csrf;
mod cutting;
mod exchange;
mod files;
mod handler;
mod header;
mod html;
mod http_filter;
mod http_servlet;
mod json_body;
pub mod laws;
mod methods;
mod multipart;
mod numeral;
mod page;
mod pass;
mod place;
mod refusal;
mod request;
mod resource;
mod same_site;
mod send;
mod static_file;
mod tokens;
mod web;

pub use attributes::{get_number, has_session, number_of, set_number, set_text};
pub use cookies::{SetCookie, set_cookie};
pub use csrf::{Csrf, csrf_token};
pub use exchange::Exchange;
pub use files::{FileChoice, FileServlet, StaticFiles};
pub use handler::{Absent, Deletes, Gets, Handler, Posts, Puts};
pub use header::{add_header, set_header, set_html, set_plain_text};
pub use html::{escape, write_escaped};
pub use http_filter::HttpFilter;
pub use http_servlet::HttpServlet;
pub use json_body::{json, send_json, send_json_error};
pub use methods::Methods;
pub use multipart::{FormPart, part};
pub use numeral::{read_u8, read_u16, read_u64};
pub use page::{Page, Piece, send_page};
pub use pass::pass_with;
pub use place::{is_own_path, send_to};
pub use refusal::Refusal;
pub use request::{cookie, field, is_post, parameter, parameter_or, setting};
pub use resource::{Delete, Get, Post, Put};
pub use same_site::SameSite;
pub use send::{send_error, send_redirect};
pub use static_file::StaticFile;
pub use tokens::{now, token};
pub use web::Web;
