//! Laws of the spellings, over the definitions alone.

ghost use Rattle.std.specs.Prelude.{◌≡◌, ◌++◌, ◌↔◌, ◌≤◌, length, take, List, ℕ, [], Ok};
ghost use Rattle.sv_model.specs.declared.packet.Packet.{Packet};
ghost use Rattle.sv_model.specs.declared.record.Record.{Record};
ghost use Rattle.sv_record.specs.declared.frame.Frame.{Frame};
ghost use Rattle.sv_record.specs.declared.record.TheConstants.{RECORD_LIMIT};
ghost use Rattle.sv_record.specs.Frame as frame;
ghost use Rattle.sv_record.specs.Packet as packet;
ghost use Rattle.sv_record.specs.Reading.{IsBytes};
ghost use Rattle.sv_record.specs.Record as kept;
ghost use Rattle.sv_record.specs.Within.{IsPacketWithin, IsRecordWithin};
ghost use Rattle.sv_record.specs.declared.version.Version.{Version};

/// Bytes are read as a record exactly where they are a spelling of it.
pub fn a_spelling_of_a_record_is_read()
    ensures { (bytes : List ℕ) (r : Record) → IsBytes bytes → ((kept.record_of bytes ≡ Ok r) ↔ kept.IsSpelling bytes r) }
{}

/// Bytes are read as a packet exactly where they are a spelling of it.
pub fn a_spelling_of_a_packet_is_read()
    ensures { (bytes : List ℕ) (p : Packet) → IsBytes bytes → ((packet.packet_of bytes ≡ Ok p) ↔ packet.IsSpelling bytes p) }
{}

/// A record has one spelling in each version, which the first byte names.
pub fn a_record_has_one_spelling_by_a_version()
    ensures { (a b : List ℕ) (r : Record) → kept.IsSpelling a r → kept.IsSpelling b r → take 1 a ≡ take 1 b → a ≡ b }
{}

/// A packet has one spelling in each version, which the first byte names.
pub fn a_packet_has_one_spelling_by_a_version()
    ensures { (a b : List ℕ) (p : Packet) → packet.IsSpelling a p → packet.IsSpelling b p → take 1 a ≡ take 1 b → a ≡ b }
{}

/// A version spells the records within its limits, of those that may be written.
pub fn a_version_spells_records_within_its_limits()
    ensures { (v : Version) (r : Record) → (kept.HasSpellingBy v r ↔ (kept.HasSpelling r × IsRecordWithin v r)) }
{}

/// A version spells the packets within its limits, of those that may be written.
pub fn a_version_spells_packets_within_its_limits()
    ensures { (v : Version) (p : Packet) → (packet.HasSpellingBy v p ↔ (packet.HasSpelling p × IsPacketWithin v p)) }
{}

/// No frame is a proper prefix of another, and bytes are a spelling of one frame.
pub fn no_frame_begins_another()
    ensures { (a b : Frame) (text more rest : List ℕ) → frame.IsSpelling text a → frame.IsSpelling more b → text ++ rest ≡ more → (a ≡ b) × (rest ≡ []) }
{}

/// Bytes are a spelling of one record.
pub fn a_spelling_is_of_one_record()
    ensures { (bytes : List ℕ) (a b : Record) → kept.IsSpelling bytes a → kept.IsSpelling bytes b → a ≡ b }
{}

/// A spelling of a record has at most so many bytes as an entry of a journal.
pub fn a_record_is_an_entry()
    ensures { (bytes : List ℕ) (r : Record) → kept.IsSpelling bytes r → length bytes ≤ RECORD_LIMIT }
{}
