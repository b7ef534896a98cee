//! What holds of each dispatch.

ghost use Rattle.sv_dispatch.specs.Keeping.{dispatch_keeps};

/// A dispatch goes on with what it is lent, where each object does: what was told stays told, the limits of sessions are
/// kept, and below an include the status and the fields of the reply stand still.
pub fn what_is_lent_is_gone_on_with()
    ensures { dispatch_keeps }
{}
