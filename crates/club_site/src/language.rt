//! What stands on the pages in one language or the other, and how a language is chosen.

ghost use Rattle.std.specs.Prelude.{◌≡◌, IsTrue};
ghost use Rattle.sv_web.specs.Place.{is_own_path};
ghost use Rattle.club_site.specs.Language as spec;

use sv_servlet::{Call, Next};
use sv_web::{
    Exchange, Get, Refusal, SetCookie, cookie, is_own_path, parameter, send_to, set_cookie,
};

/// From the base of a page up to the page to which the other language leads.
pub const LINKS: &str =
    "/\"><meta name=viewport content=\"width=device-width\"><link rel=stylesheet href=club.css><link rel=icon href=ball.svg><body lang=en><nav><a href=courts>Courts</a> <a href=league>League</a> <a href=upload>Upload</a> <a href=\"lang?to=de&amp;next=/";

pub const LINKS_DE: &str =
    "/\"><meta name=viewport content=\"width=device-width\"><link rel=stylesheet href=club.css><link rel=icon href=ball.svg><body lang=de><nav><a href=courts>Plätze</a> <a href=league>Liga</a> <a href=upload>Hochladen</a> <a href=\"lang?to=en&amp;next=/";

/// The form of the login, up to the page that follows.
pub const LOGIN: &str =
    "</p><h1>Log in</h1><form method=post action=login><label>Name <input name=name required autocomplete=username></label> <label>Password <input name=password type=password required autocomplete=current-password></label> <button>Log in</button><input type=hidden name=next value=\"";

pub const LOGIN_DE: &str =
    "</p><h1>Anmelden</h1><form method=post action=login><label>Name <input name=name required autocomplete=username></label> <label>Passwort <input name=password type=password required autocomplete=current-password></label> <button>Anmelden</button><input type=hidden name=next value=\"";

/// The forms of the courts, up to their token.
pub const COURTS: &str =
    "</p><h1>Your courts</h1><form method=post action=courts><label>Court <input name=court type=number min=1 max=4 required></label> <label>Hour <input name=hour type=number min=8 max=21 required></label> <button>Book</button> <button formaction=logout formnovalidate>Log out</button><input type=hidden name=csrf value=\"";

pub const COURTS_DE: &str =
    "</p><h1>Ihre Plätze</h1><form method=post action=courts><label>Platz <input name=court type=number min=1 max=4 required></label> <label>Uhr <input name=hour type=number min=8 max=21 required></label> <button>Buchen</button> <button formaction=logout formnovalidate>Abmelden</button><input type=hidden name=csrf value=\"";

/// The form of a list, up to its token.
pub const UPLOAD: &str =
    "</p><h1>Your list</h1><form method=post enctype=\"multipart/form-data\" action=upload><input type=hidden name=csrf value=\"";

pub const UPLOAD_DE: &str =
    "</p><h1>Ihre Liste</h1><form method=post enctype=\"multipart/form-data\" action=upload><input type=hidden name=csrf value=\"";

/// The league's table, up to its rows.
pub const LEAGUE: &str = "</p><h1>League</h1><table><tr><th>Team<th>Points";

pub const LEAGUE_DE: &str = "</p><h1>Liga</h1><table><tr><th>Mannschaft<th>Punkte";

/// What is said of a booking.
pub const BOOKED: &str = "Your court is booked.";

pub const BOOKED_DE: &str = "Der Platz ist gebucht.";

/// Keeps the language of the parameter `to` in a cookie for a year, and leads back to the page of the parameter `next`.
#[derive(Clone, Copy)]
pub struct Choice;

/// The text in the language of a request: German where its cookie `lang` is `de`, else English.
#[tactic(auto, unfolding(crate::specs::Language::say))]
pub fn say(call: &Call<'_>, english: &'static str, german: &'static str) -> &'static str
    ensures { result.now ≡ spec.say call.now english.now german.now }
{
    if cookie(call.cookies, "lang").unwrap_or(b"") == b"de".as_slice() {
        german
    } else {
        english
    }
}

/// The value of the first parameter of a name, or an empty text.
pub fn text<'a>(call: &Call<'a>, name: &str) -> &'a str
    ensures { result.now ≡ spec.text call.now name.now }
{
    parameter(call.params, name).unwrap_or("")
}

/// The page of the club that the parameter `next` names, or that of the courts.
#[tactic(auto, unfolding(sv_web::specs::Place::is_within))]
pub fn next_of<'a>(call: &Call<'a>) -> &'a str
    ensures text { result.now ≡ spec.next_of call.now }
    ensures own { IsTrue (is_own_path result.now) }
{
    let next = text(call, "next");
    if is_own_path(next) { next } else { "/courts" }
}

impl Get for Choice {
    ghost use Rattle.club_site.specs.Language.{chosen};

    ghost gets = { λ _. chosen };

    fn get(&mut self, web: &mut Exchange<'_>) -> Result<Next, Refusal> {
        let call = web.call;
        let cookie = SetCookie {
            name: "lang",
            value: if text(call, "to") == "de" { "de" } else { "en" },
            path: Some(call.context_path),
            max_age: Some(31_536_000),
            is_secure: false,
            is_http_only: true,
            same_site: None,
        };
        set_cookie(web.alloc, web.reply, &cookie)?;
        send_to(web, next_of(call))
    }
}
