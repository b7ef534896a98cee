//! Laws of text in HTML. Each function does nothing; its contract is the law.

ghost use Rattle.std.specs.Prelude.{◌≡◌, true, ℕ, List};
ghost use Rattle.std.specs.List.{list_all};
ghost use Rattle.sv_web.specs.Html.{Reads, escaped, is_harmless};

/// A text by its references is read as the text, whatever is in it; and none of the bytes that markup begins or ends with is left.
pub fn shown_as_text()
    ensures read { (text : List ℕ) → Reads (escaped text) text }
    ensures harmless { (text : List ℕ) → list_all is_harmless (escaped text) ≡ true }
{}
