//! Laws of what is remembered. Each function does nothing; its contract is the law.

ghost use Rattle.std.specs.Prelude.{◌≡◌, ◌≤◌, true, List, Some, length};
ghost use Rattle.std.specs.List.{All};
ghost use Rattle.sv_model.specs.declared.request.Request.{Request};
ghost use Rattle.sv_model.specs.declared.response.Response.{Response};
ghost use Rattle.sv_once.specs.Answer.{answer_in, is_kept, kept_answer, shown};
ghost use Rattle.sv_once.specs.Asked.{HasLengths, IsSameAsk, content_of};
ghost use Rattle.sv_once.specs.Entries.{IsSmall, memory_bytes, memory_in};
ghost use Rattle.sv_once.specs.declared.entry.Entry.{Entry};

/// What is remembered is read as it was written, and so is an answer that can be kept.
pub fn read_as_written()
    ensures memory { (es : List Entry) → length es ≤ 16 → All IsSmall es → memory_in (memory_bytes es) ≡ es }
    ensures answer { (r : Response) → is_kept (shown r) ≡ true → answer_in (kept_answer r) ≡ Some (shown r) }
{}

/// Two requests of one content ask the same: the method, the path, the query and the body.
pub fn parted_by_content()
    ensures { (a b : Request) → HasLengths a → HasLengths b → content_of a ≡ content_of b → IsSameAsk a b }
{}
