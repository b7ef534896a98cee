//! Text in HTML (HTML Living Standard, section "Character references").

ghost use Rattle.std.specs.Prelude.{◌≡◌, ◌++◌, IfOk, OnOk};
ghost use Rattle.std.specs.List.{flat_map};
ghost use Rattle.sv_servlet.specs.Reply.{write_result};
ghost use Rattle.sv_web.specs.Html.{WritesEscaped, escaped, escaped_byte};

use std::alloc::{AllocError, Global};
use sv_servlet::{Reply, ReplyFault};

/// Adds a byte, or the character reference that stands for it.
fn write_byte(bytes: &mut Vec<u8>, byte: u8) -> Result<(), AllocError>
    ensures { OnOk result (bytes.new.items ≡ bytes.old.items ++ escaped_byte byte) }
{
    match byte {
        b'<' => bytes.extend_from_slice(b"&lt;"),
        b'>' => bytes.extend_from_slice(b"&gt;"),
        b'&' => bytes.extend_from_slice(b"&amp;"),
        b'"' => bytes.extend_from_slice(b"&quot;"),
        b'\'' => bytes.extend_from_slice(b"&#39;"),
        _ => Ok(bytes.push(byte)?),
    }
}

/// Adds a text with the five characters that markup is made of replaced by references.
#[tactic(auto, unfolding(crate::specs::Html::escaped))]
pub(crate) fn add_escaped(bytes: &mut Vec<u8>, text: &[u8]) -> Result<(), AllocError>
    ensures { OnOk result (bytes.new.items ≡ bytes.old.items ++ escaped text.now) }
{
    for byte in text {
        write_byte(bytes, *byte)?;
    }
    Ok(())
}

/// A text with the five characters that markup is made of replaced by references, so that it is shown, whatever is in it.
pub fn escape(alloc: Global, text: &[u8]) -> Result<Vec<u8>, AllocError>
    ensures { IfOk result (λ bytes. bytes.items ≡ escaped text.now) }
{
    let mut bytes = Vec::new(alloc);
    add_escaped(&mut bytes, text)?;
    Ok(bytes)
}

/// Adds a text to the body so that it is shown, whatever is in it.
pub fn write_escaped(alloc: Global, reply: &mut Reply, text: &[u8]) -> Result<(), ReplyFault>
    ensures { WritesEscaped reply.old (write_result reply.old (escaped text.now)) result reply.new }
{
    let bytes = escape(alloc, text)?;
    reply.write(bytes.as_slice())
}
