//! A law of the mapping, over its definitions alone.

ghost use Rattle.std.specs.Prelude.{MatchOption};
ghost use Rattle.sv_mapping.specs.Path.{Text};
ghost use Rattle.sv_mapping.specs.Mappings.{Table, HasNoMatch, IsMappedByBest, mapped};

/// Of the patterns that match a path there is a best one, and the path is mapped to what it says; where none matches,
/// to nothing.
pub fn mapped_to_the_best()
    ensures { (table : Table) (path : Text) → MatchOption (mapped table path) (HasNoMatch table path) (IsMappedByBest table path) }
{}
