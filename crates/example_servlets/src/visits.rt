//! The pages that a session is shown.

ghost use Rattle.std.specs.Prelude.{◌≡◌, codes};
ghost use Rattle.sv_session.specs.Calls.{Answers, value_result};
ghost use Rattle.sv_web.specs.Exchange.{CompletesPart};
ghost use Rattle.example_cart.specs.Kept.{cart_in};
ghost use Rattle.example_cart.specs.Pages.{around_of};
ghost use Rattle.example_servlets.specs.Kept as kept;
ghost use Rattle.example_servlets.specs.Visits as spec;
ghost use Rattle.example_servlets.specs.Visits.{around, one_more};

use crate::kept::{NAME, VISIT, seen, session_number};
use example_cart::{Cart, Frame, Mark, Visit, kept_visit, read_visit};
use sv_session::{SessionEdit, SessionFault};
use sv_web::{Exchange, Refusal, has_session};

/// The visit of a session, as a node sees it.
fn visit_of(edit: &SessionEdit, node: u8) -> Visit
    ensures { result ≡ spec.visit_of node edit.entry.now }
{
    read_visit(node, seen(edit, VISIT))
}

/// Counts a page that the session is shown, by this node.
#[tactic(auto, unfolding(crate::specs::Visits::one_more))]
pub fn count(edit: &mut SessionEdit, node: u8) -> Result<(), SessionFault>
    ensures { Answers edit.old (value_result edit.old (codes "visit") (one_more node edit.old)) result edit.new }
{
    let visit = visit_of(edit, node).arrived(node);
    edit.set(VISIT, Some(&kept_visit(visit)))
}

/// Makes a session if there is none, and counts its first page.
#[tactic(auto, unfolding(crate::specs::Visits::begun))]
pub fn begin(web: &mut Exchange<'_>, node: u8) -> Result<(), Refusal>
    ensures { CompletesPart (spec.begun node) web.old web.new result }
{
    if has_session(web.edit) {
        return Ok(());
    }
    web.edit.create()?;
    count(web.edit, node)?;
    Ok(())
}

/// What stands round a page, in a session as it is with its cart.
#[tactic(auto, unfolding(crate::specs::Visits::around))]
pub fn frame_of<'a>(base: &'a str, node: u8, edit: &'a SessionEdit, cart: &Cart) -> Frame<'a>
    requires { cart.now ≡ cart_in (kept.seen edit.now (codes "cart")) }
    ensures { around_of result ≡ around base.now node edit.entry.now }
{
    let visit = visit_of(edit, node);
    Frame {
        base,
        name: seen(edit, NAME),
        count: cart.count(),
        mark: Mark {
            visit: session_number(edit),
            page: visit.page,
        },
        node,
        moves: visit.moves,
    }
}
