//! Blanks at the ends of a text: spaces and tabs (RFC 9110, section 5.6.3).

ghost use Rattle.std.specs.Prelude.{◌≡◌};
ghost use Rattle.sv_model.specs.Blanks as spec;

fn is_blank(byte: u8) -> bool
    ensures { result ≡ spec.is_blank byte }
{
    byte == b' ' || byte == b'\t'
}

fn trim_start(text: &[u8]) -> &[u8]
    ensures { result.now ≡ spec.trim_start text.now }
{
    let mut left = text;
    while let Some((first, others)) = left.split_first() {
        if !is_blank(*first) {
            break;
        }
        left = others;
    }
    left
}

fn trim_end(text: &[u8]) -> &[u8]
    ensures { result.now ≡ spec.trim_end text.now }
{
    let mut left = text;
    while let Some((last, others)) = left.split_last() {
        if !is_blank(*last) {
            break;
        }
        left = others;
    }
    left
}

/// The text without the blanks at both ends.
#[tactic(auto, unfolding(crate::specs::Blanks::trim))]
pub fn trim(text: &[u8]) -> &[u8]
    ensures { result.now ≡ spec.trim text.now }
{
    trim_end(trim_start(text))
}
