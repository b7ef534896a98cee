//! A node that stands alone, over engines of the tests' own.

ghost use Rattle.sv_model.specs.Keys.{IsKey};
ghost use Rattle.sv_model.specs.Ranges.{IsInput};

use super::AT;
use super::engines::{Greeter, Turner};
use crate::requests::request_for;
use std::alloc::Global;
use std::process::Abort;
use sv_model::{Input, Key, Moment, MoveRefusal, Output, Packet, Secret, Site};
use sv_solo::Solo;

/// Steps a site as any caller of one does.
fn step_at<S: Site>(rt: &impl Abort, site: &mut S, now: u64, input: Input) -> Vec<Output>
    requires valid { S.site_valid site.old }
    requires input { IsInput input }
    ensures { S.site_valid site.new }
{
    let moment = Moment {
        now,
        steady: now,
        secret: AT.secret,
    };
    site.step(moment, input).expect(rt, "a step succeeds")
}

/// The same at one moment, by a request.
fn ask_once<S: Site>(rt: &impl Abort, site: &mut S, alloc: Global, token: u64) -> Vec<Output>
    requires { S.site_valid site.old }
    ensures { S.site_valid site.new }
{
    let request = request_for(rt, alloc, "/as/sent", "/as/read", true);
    step_at(rt, site, AT.now, Input::Ask { token, request })
}

/// By an order to move a session.
fn move_once<S: Site>(rt: &impl Abort, site: &mut S, key: Key) -> Vec<Output>
    requires valid { S.site_valid site.old }
    requires key { IsKey key }
    ensures { S.site_valid site.new }
{
    step_at(rt, site, AT.now, Input::Move { key, to: 1 })
}

/// The only output is the answer of the greeter under this number, which closes.
fn is_greeting(outputs: &[Output], token: u64) -> bool {
    match outputs {
        [
            Output::Answer {
                token: to,
                response,
            },
        ] => *to == token && response.body.as_slice() == b"/as/sent".as_slice() && response.close,
        _ => false,
    }
}

/// Whether a request under a number is greeted.
fn greets<S: Site>(rt: &impl Abort, site: &mut S, alloc: Global, token: u64) -> bool
    requires { S.site_valid site.old }
    ensures { S.site_valid site.new }
{
    let outputs = ask_once(rt, site, alloc, token);
    is_greeting(&outputs, token)
}

pub(in crate::connection) fn a_node_alone_answers(rt: &impl Abort, alloc: Global) -> bool {
    let mut site = Solo::new(alloc, Greeter { alloc });
    greets(rt, &mut site, alloc, 3) && greets(rt, &mut site, alloc, 4)
}

/// The first session, of the only node.
const FIRST: (Key, Secret) = (Key { home: 0, serial: 1 }, Secret([7; 16]));

const SECOND: Key = Key { home: 0, serial: 2 };

/// The output is a refusal of a move, for this reason.
fn is_refusal(outputs: &[Output], reason: MoveRefusal) -> bool {
    match outputs {
        [Output::MoveRefused(why)] => *why == reason,
        _ => false,
    }
}

/// Whether a request under the number 7 is answered.
fn is_answered<S: Site>(rt: &impl Abort, site: &mut S, alloc: Global) -> bool
    requires { S.site_valid site.old }
    ensures { S.site_valid site.new }
{
    let outputs = ask_once(rt, site, alloc, 7);
    matches!(outputs.as_slice(), [Output::Answer { token: 7, .. }])
}

/// A move of the first session is refused for a reason, and then a request is answered.
fn is_turned<S: Site>(rt: &impl Abort, site: &mut S, alloc: Global, reason: MoveRefusal) -> bool
    requires { S.site_valid site.old }
    ensures { S.site_valid site.new }
{
    is_refused(rt, site, FIRST.0, reason) && is_answered(rt, site, alloc)
}

/// Nothing is known of the first session, then it was made, then it has ended; the third request made the second one, since the
/// first had ended.
fn keeps_sessions<S: Site>(rt: &impl Abort, site: &mut S, alloc: Global) -> bool
    requires { S.site_valid site.old }
    ensures { S.site_valid site.new }
{
    is_turned(rt, site, alloc, MoveRefusal::UnknownKey)
        && is_turned(rt, site, alloc, MoveRefusal::BadPeer)
        && is_turned(rt, site, alloc, MoveRefusal::NotActive)
        && is_refused(rt, site, SECOND, MoveRefusal::BadPeer)
}

/// Each request names the first session: where it isn't active one is made, where it is it ends.
pub(in crate::connection) fn a_node_alone_keeps_its_sessions(
    rt: &impl Abort,
    alloc: Global,
) -> bool {
    let mut site = Solo::new(
        alloc,
        Turner {
            alloc,
            named: Some(FIRST),
            told: 0,
        },
    );
    keeps_sessions(rt, &mut site, alloc)
}

/// So many seconds after the requests, what a move of each of two sessions is refused for, and how many ends listeners were told.
struct Ticked {
    after: u64,
    first: MoveRefusal,
    second: MoveRefusal,
    told: usize,
}

/// Two sessions of 60 seconds, made by the requests: each tick ends the least key that has expired.
static TICKS: [Ticked; 4] = [
    Ticked {
        after: 59,
        first: MoveRefusal::BadPeer,
        second: MoveRefusal::BadPeer,
        told: 0,
    },
    Ticked {
        after: 60,
        first: MoveRefusal::NotActive,
        second: MoveRefusal::BadPeer,
        told: 1,
    },
    Ticked {
        after: 60,
        first: MoveRefusal::NotActive,
        second: MoveRefusal::NotActive,
        told: 2,
    },
    Ticked {
        after: 60,
        first: MoveRefusal::NotActive,
        second: MoveRefusal::NotActive,
        told: 2,
    },
];

/// How many outputs a step has.
fn put_out<S: Site>(rt: &impl Abort, site: &mut S, now: u64, input: Input) -> usize
    requires valid { S.site_valid site.old }
    requires input { IsInput input }
    ensures { S.site_valid site.new }
{
    step_at(rt, site, now, input).len()
}

/// Whether an order to move a session is refused for this reason.
fn is_refused<S: Site>(rt: &impl Abort, site: &mut S, key: Key, reason: MoveRefusal) -> bool
    requires valid { S.site_valid site.old }
    requires key { IsKey key }
    ensures { S.site_valid site.new }
{
    let outputs = move_once(rt, site, key);
    is_refusal(outputs.as_slice(), reason)
}

/// After so many seconds a tick puts nothing out, and then moves of the two sessions are refused as it says.
fn is_ticked<S: Site>(rt: &impl Abort, site: &mut S, tick: &Ticked) -> bool
    requires { S.site_valid site.old }
    ensures { S.site_valid site.new }
{
    let now = AT.now.saturating_add(tick.after);
    put_out(rt, site, now, Input::Tick) == 0
        && is_refused(rt, site, FIRST.0, tick.first)
        && is_refused(rt, site, SECOND, tick.second)
}

/// Makes both sessions.
fn make_two<S: Site>(rt: &impl Abort, site: &mut S, alloc: Global)
    requires { S.site_valid site.old }
    ensures { S.site_valid site.new }
{
    ask_once(rt, site, alloc, 7);
    ask_once(rt, site, alloc, 7);
}

/// A session that nothing has named for its 60 seconds ends at a tick, and not before; the listeners are told it once.
pub(in crate::connection) fn a_node_alone_ends_what_has_expired(
    rt: &impl Abort,
    alloc: Global,
) -> bool {
    let mut site = Solo::new(
        alloc,
        Turner {
            alloc,
            named: None,
            told: 0,
        },
    );
    make_two(rt, &mut site, alloc);
    let mut is_right = true;
    for tick in &TICKS {
        let is_ended = is_ticked(rt, &mut site, tick);
        is_right = is_right && is_ended && site.engine.told == tick.told;
    }
    is_right
}

/// What concerns other nodes puts nothing out, and nothing can be moved.
fn has_no_peers<S: Site>(rt: &impl Abort, site: &mut S) -> bool
    requires { S.site_valid site.old }
    ensures { S.site_valid site.new }
{
    let no = Packet::No {
        from: 1,
        to: 0,
        key: FIRST.0,
        boot: 1,
        want: 0,
    };
    put_out(rt, site, AT.now, Input::Packet(no)) == 0
        && put_out(rt, site, AT.now, Input::Poke) == 0
        && put_out(rt, site, AT.now, Input::Tick) == 0
        && is_refused(rt, site, FIRST.0, MoveRefusal::UnknownKey)
}

pub(in crate::connection) fn a_node_alone_has_no_peers(rt: &impl Abort, alloc: Global) -> bool {
    let mut site = Solo::new(alloc, Greeter { alloc });
    has_no_peers(rt, &mut site)
}
