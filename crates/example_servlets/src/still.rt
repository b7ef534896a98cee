//! What is sent as it stands: the look of the pages, and the mark of the shop.

ghost use Rattle.std.specs.Prelude.{◌≡◌, IsTrue};
ghost use Rattle.http_header.specs.FieldValue.{is_visible_text};
ghost use Rattle.example_servlets.specs.Still as spec;

use sv_servlet::Next;
use sv_web::{Exchange, Get, Refusal, set_header};

/// What a text is.
#[derive(Clone, Copy)]
pub enum Kind {
    Css,
    Svg,
}

/// Sends a text as it stands.
#[derive(Clone, Copy)]
pub struct Still {
    pub kind: Kind,
    pub text: &'static str,
}

/// The media type of a text (RFC 9110, section 8.3.1).
fn media_type(kind: Kind) -> &'static str
    ensures text { result.now ≡ spec.media_type kind }
    ensures visible { IsTrue (is_visible_text result.now) }
{
    match kind {
        Kind::Css => "text/css",
        Kind::Svg => "image/svg+xml",
    }
}

impl Get for Still {
    ghost use Rattle.example_servlets.specs.Still.{still};

    ghost gets = { λ s. still s.kind s.text.now };

    fn get(&mut self, web: &mut Exchange<'_>) -> Result<Next, Refusal> {
        set_header(web.reply, "content-type", media_type(self.kind))?;
        web.reply.write(self.text.as_bytes())?;
        Ok(Next::Done)
    }
}
