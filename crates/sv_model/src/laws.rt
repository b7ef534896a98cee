//! Laws of a node's step, over every engine that keeps an engine's laws, every setting, node, moment and input.
//!
//! They speak of the definitions alone: the step of [`crate::node`]'s node by the whole table.

ghost use Rattle.std.specs.Prelude.{List};
ghost use Rattle.sv_model.specs.declared.event.Told.{Told};
ghost use Rattle.sv_model.specs.declared.key.Moment.{Moment};
ghost use Rattle.sv_model.specs.declared.key.Secret.{Secret};
ghost use Rattle.sv_model.specs.declared.request.Request.{Request};
ghost use Rattle.sv_model.specs.declared.response.Response.{Response};
ghost use Rattle.sv_model.specs.declared.session.Session.{Session};
ghost use Rattle.sv_model.specs.declared.input.Input.{Input};
ghost use Rattle.sv_model.specs.declared.node.Setting.{Setting};
ghost use Rattle.sv_model.specs.Engine.{EngineMeaning, TouchesOnlyHanded};
ghost use Rattle.sv_model.specs.Limits.{KeepsLimits, NamesKeys};
ghost use Rattle.sv_model.specs.NodeState.{Node};
ghost use Rattle.sv_model.specs.Node.{decided};
ghost use Rattle.sv_model.specs.Journaled.{IsJournaled};
ghost use Rattle.sv_model.specs.Rows.{IsExample, IsHandedOver, AreLate, IsNeverMade, AreTicks, AreOrders, AreForgotten, AreFull, AreForgetting};
ghost use Rattle.sv_model.specs.Ranges.{IsSetting, IsInput, IsRanged, IsRangedStep};

/// The record of a step may stand after those of the node, and makes of what the node kept durably what it keeps after
/// the step: so what is durable at a node is the replay of its records.
pub fn journaled()
    ensures { (m : EngineMeaning) → TouchesOnlyHanded m → (set : Setting) (n : Node) (moment : Moment) (input : Input)
        → IsJournaled set n (decided m set n moment input) }
{}

/// A node of a cluster that keeps nothing past the ranges of the formats, and is given nothing past them, writes and sends
/// nothing past them and keeps nothing past them.
pub fn ranged()
    ensures { (m : EngineMeaning) → KeepsLimits m → NamesKeys m → (set : Setting) → IsSetting set → (n : Node) → IsRanged n
        → (moment : Moment) (input : Input) → IsInput input → IsRangedStep (decided m set n moment input) }
{}

/// Examples of the table with three nodes, written out: a session is made at one node and handed over to another that is
/// asked for it; packets that come again or late change nothing; a request for a session that was never made is served
/// without it; what was lost is sent again, and a request that has waited long enough is refused; a session is moved by order, and
/// ends when it has expired; no more than 64 requests wait; a node that forgets answers for what it has forgotten as for what has
/// ended; and one that has no room for a key leaves its session where it is.
pub fn worked()
    ensures handed_over { (m : EngineMeaning) (secret : Secret) (first again : Request) (made kept : Session) (one two : Response) (events more : List Told)
        → IsExample m secret first again made kept one two events more → IsHandedOver m secret first again made kept one two events more }
    ensures late { (m : EngineMeaning) (secret : Secret) (first again : Request) (made kept : Session) (one two : Response) (events more : List Told)
        → IsExample m secret first again made kept one two events more → AreLate m secret first again made kept one two events more }
    ensures never_made { (m : EngineMeaning) (secret : Secret) (first again : Request) (made kept : Session) (one two : Response) (events more : List Told)
        → IsExample m secret first again made kept one two events more → IsNeverMade m secret first again made kept one two events more }
    ensures ticks { (m : EngineMeaning) (secret : Secret) (first again : Request) (made kept : Session) (one two : Response) (events more : List Told)
        → IsExample m secret first again made kept one two events more → AreTicks m secret first again made kept one two events more }
    ensures forgotten { (m : EngineMeaning) (secret : Secret) (first again : Request) (made kept : Session) (one two : Response) (events more : List Told)
        → IsExample m secret first again made kept one two events more → AreForgotten m secret first again made kept one two events more }
    ensures full { (m : EngineMeaning) (secret : Secret) (first again : Request) (made kept : Session) (one two : Response) (events more : List Told)
        → IsExample m secret first again made kept one two events more → AreFull m secret first again made kept one two events more }
    ensures forgetting { (s : Session) → AreForgetting s }
    ensures orders { (m : EngineMeaning) (secret : Secret) (first again : Request) (made kept : Session) (one two : Response) (events more : List Told)
        → IsExample m secret first again made kept one two events more → AreOrders m secret first again made kept one two events more }
{}
