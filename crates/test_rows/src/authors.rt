//! What authors of servlets share. Most of its rows have words with blanks between them; the last word may have blanks of its own. What
//! is expected is worked by hand from the standards and the documents.

mod asked;
mod attributes;
mod checked;
mod closed;
mod cookies;
mod deeds;
mod echo;
mod files;
mod methods;
mod pages;
mod parts;
mod pieces;
mod requests;
mod said;
mod served;
mod status;
mod tokens;

use crate::fault::RowFault;
use std::alloc::Global;

fn of_cookie(alloc: Global, kind: &str, words: &str) -> Result<String, RowFault> {
    match kind {
        "cookie" => cookies::cookie(alloc, words),
        "setting" => cookies::setting(alloc, words),
        "set-cookie" => cookies::set(alloc, words),
        "token" => cookies::token(alloc, words),
        "now" => cookies::now(alloc, words),
        "csrf" => tokens::csrf(alloc, words),
        "csrf-token" => tokens::given(alloc, words),
        _ => Err(RowFault::Kind),
    }
}

fn of_session(alloc: Global, kind: &str, words: &str) -> Result<String, RowFault> {
    match kind {
        "value" => attributes::value(alloc, words),
        "has-session" => attributes::session(alloc, words),
        "text" => attributes::text(alloc, words),
        "number" => attributes::number(alloc, words),
        "status" => served::status(alloc, words),
        "echo" => served::echo(alloc, words),
        "closed" => served::closed(alloc, words),
        _ => of_cookie(alloc, kind, words),
    }
}

fn of_exchange(alloc: Global, kind: &str, parts: &str) -> Result<String, RowFault> {
    match kind {
        "methods" => methods::methods(alloc, parts),
        "json-put" => methods::json_put(alloc, parts),
        "page-of" => deeds::page(alloc, parts),
        "send-to" => deeds::to(alloc, parts),
        "json" => deeds::json_back(alloc, parts),
        "json-error" => deeds::json_error(alloc, parts),
        "part" => parts::part(alloc, parts),
        "file" => files::file(alloc, parts),
        _ => of_session(alloc, kind, parts),
    }
}

fn of_page(alloc: Global, kind: &str, words: &str) -> Result<String, RowFault> {
    match kind {
        "escaped" => pages::escaped(alloc, words),
        "written" => pages::written(alloc, words),
        "error" => pages::error(alloc, words),
        "head" => pages::head(alloc, words),
        "own-path" => pages::own_path(alloc, words),
        _ => of_exchange(alloc, kind, words),
    }
}

/// What came of the words of a row of this kind.
pub fn tried(alloc: Global, kind: &str, words: &str) -> Result<String, RowFault> {
    match kind {
        "u8" => requests::u8(alloc, words),
        "u16" => requests::u16(alloc, words),
        "u64" => requests::u64(alloc, words),
        "post" => requests::post(alloc, words),
        "parameter" => requests::parameter(alloc, words),
        "parameter-or" => requests::parameter_or(alloc, words),
        _ => of_page(alloc, kind, words),
    }
}
