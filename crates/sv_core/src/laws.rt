//! Laws of what a node keeps durably, over every setting and every list of records.
//!
//! They speak of the definitions alone.

ghost use Rattle.std.specs.Prelude.{List};
ghost use Rattle.sv_model.specs.declared.node.Setting.{Setting};
ghost use Rattle.sv_model.specs.declared.node.Stage.TheVariants.{Blank};
ghost use Rattle.sv_model.specs.declared.record.Record.{Record};
ghost use Rattle.sv_model.specs.Replay.{blank, replayed};
ghost use Rattle.sv_model.specs.Fitting.{AllFit};
ghost use Rattle.sv_core.specs.Snapshot.{IsWhole};

/// A snapshot of what records have given may stand in their place: its own records may stand after one another, and give
/// the same.
pub fn snapshots()
    ensures { (set : Setting) (records : List Record) → AllFit set Blank blank records → IsWhole set (replayed blank records) }
{}
