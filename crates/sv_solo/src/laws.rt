//! Laws of a node alone, over every list of calls of its step.
//!
//! They speak of the definitions that [`crate::solo::Solo`]'s step cites, at the node that it is seen as, and over every
//! engine that keeps an engine's laws.

ghost use Rattle.std.specs.Prelude.{◌≡◌, List, []};
ghost use Rattle.sv_model.specs.Engine.{EngineMeaning, TouchesOnlyHanded, heard_all};
ghost use Rattle.sv_model.specs.Limits.{NamesKeys};
ghost use Rattle.sv_model.specs.Step.{View};
ghost use Rattle.sv_solo.specs.Table.{alone, node_of};
ghost use Rattle.sv_solo.specs.Solo.{IsHistory};
ghost use Rattle.sv_model.specs.Alone.{Call, trace_of};
ghost use Rattle.sv_model.specs.Trace.{Item, asked_of, told_of, AreDistinct};
ghost use Rattle.sv_model.specs.OneContainer.{IsOneContainer, IsAcknowledged, IsServedOnce, active_at};

/// The commits of all steps are a run of one container, in which a request is served without the session that it names
/// only if the container had none since the request came; and the node holds the container's sessions.
pub fn one_container()
    ensures { (m : EngineMeaning) → TouchesOnlyHanded m → NamesKeys m
        → (first end : View) (calls : List Call) → IsHistory m first calls end
        → IsOneContainer m (trace_of m alone (node_of []) calls) (active_at end.node) }
{}

/// Each answer is the container's reply to its request, at the place of the commit that served it; a token is served or
/// refused no more often than a request came under it. So if each request has a token of its own no token is served
/// twice, and none that is refused is served.
pub fn acknowledged()
    ensures each { (m : EngineMeaning) → TouchesOnlyHanded m → NamesKeys m
        → (first end : View) (calls : List Call) → IsHistory m first calls end
        → IsAcknowledged m (trace_of m alone (node_of []) calls) }
    ensures once { (m : EngineMeaning) (trace : List Item) → IsAcknowledged m trace → AreDistinct (asked_of trace) → IsServedOnce trace }
{}

/// Listeners are told the events of the commits, in their order, and nothing else.
pub fn heard()
    ensures { (m : EngineMeaning) → TouchesOnlyHanded m → NamesKeys m
        → (first end : View) (calls : List Call) → IsHistory m first calls end
        → end.heard ≡ heard_all m first.heard (told_of (trace_of m alone (node_of []) calls)) }
{}
