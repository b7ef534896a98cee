//! The session cookie of a context.

ghost use Rattle.std.specs.Char.{to_ascii_lowercase};
ghost use Rattle.std.specs.Prelude.{◌≡◌, IfOk, bytes_eq, codes, map, option_and_then, option_map, string_bytes, take};
ghost use Rattle.toml.specs.View.{table_view};
ghost use Rattle.sv_config.specs.Cookie as spec;
ghost use Rattle.sv_config.specs.Document.{text_at as spec_text_at};
ghost use Rattle.sv_config.specs.Spelling.{fails_at};
ghost use Rattle.sv_config.specs.Values.{cookie_data, cookie_of, cookie_of_table};

use crate::document::{boolean_at, owned_text_at, table_at, text_at, text_or_empty};
use std::alloc::{AllocError, Global};
use toml::Table;

/// The attribute `SameSite` (RFC 6265bis, section 4.1.2.7): which requests that other sites bring about have the cookie.
#[derive(Clone, Copy, Debug, PartialEq, Eq)]
pub enum SameSite {
    /// None of them.
    Strict,
    /// Those that lead the browser to another page by a safe method.
    Lax,
    /// All of them.
    None,
}

impl SameSite {
    /// Its word in a cookie.
    pub fn word(self) -> &'static str
        ensures { result.now ≡ spec.word_of self }
    {
        match self {
            SameSite::Strict => "Strict",
            SameSite::Lax => "Lax",
            SameSite::None => "None",
        }
    }

    /// The one of a word.
    fn of_word(word: &str) -> Option<SameSite>
        ensures { result ≡ spec.same_site_of word.now }
    {
        match word {
            "Strict" => Some(SameSite::Strict),
            "Lax" => Some(SameSite::Lax),
            "None" => Some(SameSite::None),
            _ => None,
        }
    }
}

/// The session cookie of a context, where it differs from the one of the standard.
#[derive(Debug, Drop)]
pub struct CookieConfig {
    /// Its name; where there is none it is JSESSIONID.
    pub name: Option<String>,
    /// It has the attribute `Secure` (RFC 6265, section 4.1.2.5).
    pub secure: bool,
    /// Its attribute `SameSite`, where it has one.
    pub same_site: Option<SameSite>,
}

/// The session cookie of a context.
#[tactic(auto, unfolding(crate::specs::Values::cookie_of))]
pub(crate) fn read_cookie(alloc: Global, context: &Table) -> Result<CookieConfig, AllocError>
    ensures { IfOk result (λ cookie. cookie_data cookie ≡ cookie_of (table_view context.now)) }
{
    match table_at(context, "cookie") {
        Some(table) => cookie_of_table(alloc, table),
        None => Ok(CookieConfig {
            name: None,
            secure: false,
            same_site: None,
        }),
    }
}

fn cookie_of_table(alloc: Global, table: &Table) -> Result<CookieConfig, AllocError>
    ensures { IfOk result (λ cookie. cookie_data cookie ≡ cookie_of_table (table_view table.now)) }
{
    Ok(CookieConfig {
        name: owned_text_at(alloc, table, "name")?,
        secure: is_secure(table),
        same_site: same_site_at(table),
    })
}

fn is_secure(cookie: &Table) -> bool
    ensures { result ≡ spec.is_secure (table_view cookie.now) }
{
    match boolean_at(cookie, "secure") {
        Some(secure) => secure,
        None => false,
    }
}

fn same_site_at(cookie: &Table) -> Option<SameSite>
    ensures { result ≡ option_and_then spec.same_site_of (spec_text_at (codes "same-site") (table_view cookie.now)) }
{
    match text_at(cookie, "same-site") {
        Some(word) => SameSite::of_word(word),
        None => None,
    }
}

/// Whether `same-site` is none of the three words.
pub(crate) fn has_bad_same_site(cookie: &Table) -> bool
    ensures { result ≡ fails_at spec.is_same_site (codes "same-site") (table_view cookie.now) }
{
    match text_at(cookie, "same-site") {
        Some(word) => SameSite::of_word(word).is_none(),
        None => false,
    }
}

/// Whether browsers would drop the cookie, since it isn't `secure`.
pub(crate) fn lacks_secure(cookie: &Table) -> bool
    ensures { result ≡ spec.lacks_secure (table_view cookie.now) }
{
    wants_secure(cookie) && !is_secure(cookie)
}

fn wants_secure(cookie: &Table) -> bool
    ensures { result ≡ spec.wants_secure (table_view cookie.now) }
{
    is_cross_site(cookie) || has_secure_name(cookie)
}

fn is_cross_site(cookie: &Table) -> bool
    ensures { result ≡ spec.is_cross_site (table_view cookie.now) }
{
    match text_at(cookie, "same-site") {
        Some(word) => word == "None",
        None => false,
    }
}

fn has_secure_name(cookie: &Table) -> bool
    ensures { result ≡ spec.has_secure_name (table_view cookie.now) }
{
    match text_at(cookie, "name") {
        Some(name) => has_prefix("__Secure-", name) || has_prefix("__Host-", name),
        None => false,
    }
}

/// Whether a name begins as the prefix does, whatever the case of its letters.
fn has_prefix(prefix: &str, name: &str) -> bool
    ensures { result ≡ spec.has_prefix prefix.now name.now }
{
    is_alike(
        first_bytes(name.as_bytes(), prefix.len()),
        prefix.as_bytes(),
    )
}

/// The first bytes of a text, so many where it has them.
#[tactic(auto, using(std::proofs::lemmas::List::take_min))]
fn first_bytes(text: &[u8], count: usize) -> &[u8]
    ensures { result.now ≡ take count text.now }
{
    &text[..count.min(text.len())]
}

/// Whether two texts are the same but for the case of letters.
fn is_alike(one: &[u8], other: &[u8]) -> bool
    ensures { result ≡ bytes_eq (map to_ascii_lowercase one.now) (map to_ascii_lowercase other.now) }
{
    one.eq_ignore_ascii_case(other)
}

/// Whether a cookie's name is for a context at the root alone, and its own isn't there.
pub(crate) fn has_stray_name(is_root: bool, cookie: &Table) -> bool
    ensures { result ≡ fails_at (spec.fits_context is_root) (codes "name") (table_view cookie.now) }
{
    match text_at(cookie, "name") {
        Some(name) => !(is_root || !has_prefix("__Host-", name)),
        None => false,
    }
}

/// Whether a context is at the root.
pub(crate) fn is_root(context: &Table) -> bool
    ensures { result ≡ spec.is_root (table_view context.now) }
{
    text_or_empty(context, "path").is_empty()
}
