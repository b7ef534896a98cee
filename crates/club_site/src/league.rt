//! The league.

use crate::frame::begin;
use crate::language::{LEAGUE, LEAGUE_DE, say};
use sv_servlet::Next;
use sv_web::Piece::Markup;
use sv_web::{Exchange, Get, Refusal, send_page};

/// The rows of the teams.
const TEAMS: &str = "<tr><td>Serve &amp; Volley<td>21<tr><td>Lobs<td>18<tr><td>Aces<td>4</table>";

/// Shows the league.
#[derive(Clone, Copy)]
pub struct League;

impl Get for League {
    ghost use Rattle.club_site.specs.League.{league};

    ghost gets = { λ _. league };

    fn get(&mut self, web: &mut Exchange<'_>) -> Result<Next, Refusal> {
        let mut page = begin(web, "league", b"")?;
        page.write(&[Markup(say(web.call, LEAGUE, LEAGUE_DE)), Markup(TEAMS)])?;
        send_page(web, &page)
    }
}
