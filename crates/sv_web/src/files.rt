//! Files that are answered as they are (RFC 9110).

ghost use Rattle.std.specs.Prelude.{◌≡◌, ◌==◌, IsTrue, nat_eq, option_copied, option_map};
ghost use Rattle.std.specs.List.{ends_with, find, list_all, list_any, slice_split};
ghost use Rattle.http_header.specs.FieldName.{is_header_name};
ghost use Rattle.http_header.specs.FieldValue.{is_visible_text};
ghost use Rattle.sv_servlet.specs.Reply.{Answers, field_result};
ghost use Rattle.sv_web.specs.Exchange.{Completes, CompletesPart};
ghost use Rattle.sv_web.specs.Files as spec;
ghost use Rattle.sv_web.specs.Steps.{set_field};

use crate::cutting::begins_with;
use crate::exchange::Exchange;
use crate::handler::{Absent, Gets};
use crate::header::set_header;
use crate::http_servlet::HttpServlet;
use crate::methods::Methods;
use crate::refusal::Refusal;
use crate::resource::Get;
use crate::static_file::StaticFile;
use http_header::{HeaderName, HeaderValue};
use sv_model::{Field, Text};
use sv_servlet::{Next, Reply, ReplyFault};

/// Which of its files a servlet answers with.
#[derive(Clone, Copy, Debug, PartialEq, Eq)]
pub enum FileChoice {
    /// The first, whatever the path.
    First,
    /// The one whose name the path info is, after its `/`.
    ByPathInfo,
}

/// What answers GET and HEAD with files: each with its media type, its tag and, where there is one, a Cache-Control, and with 304 where
/// the client has it by If-None-Match (section 13.1.2). It knows no ranges and no modification times, and leaves the session alone.
#[derive(Clone, Copy)]
pub struct StaticFiles<'a> {
    pub choice: FileChoice,
    pub files: &'a [StaticFile],
    /// The value of Cache-Control (RFC 9111, section 5.2).
    pub cache: Option<&'a HeaderValue>,
}

/// A servlet of files: it answers GET and HEAD by them, OPTIONS, and every other method by the error 405.
pub type FileServlet<'a> = Methods<Gets<StaticFiles<'a>>, Absent, Absent, Absent>;

/// Whether a name has the extension.
fn is_of(name: &str, extension: &str) -> bool
    ensures { result ≡ ends_with nat_eq name.now extension.now }
{
    name.as_bytes().ends_with(extension.as_bytes())
}

/// The media type that the name of a file tells (section 8.3).
#[tactic(auto, unfolding(crate::specs::Files::media_type))]
fn media_type(name: &str) -> &'static str
    ensures text { result.now ≡ spec.media_type name.now }
    ensures visible { IsTrue (is_visible_text result.now) }
{
    if is_of(name, ".html") {
        "text/html; charset=utf-8"
    } else if is_of(name, ".css") {
        "text/css; charset=utf-8"
    } else if is_of(name, ".js") {
        "text/javascript; charset=utf-8"
    } else if is_of(name, ".txt") {
        "text/plain; charset=utf-8"
    } else if is_of(name, ".json") {
        "application/json"
    } else if is_of(name, ".svg") {
        "image/svg+xml"
    } else if is_of(name, ".png") {
        "image/png"
    } else if is_of(name, ".jpg") {
        "image/jpeg"
    } else if is_of(name, ".webp") {
        "image/webp"
    } else if is_of(name, ".ico") {
        "image/vnd.microsoft.icon"
    } else if is_of(name, ".woff2") {
        "font/woff2"
    } else if is_of(name, ".pdf") {
        "application/pdf"
    } else {
        "application/octet-stream"
    }
}

/// Whether a path info is `/` and the file's name.
fn is_named(path: &str, file: &StaticFile) -> bool
    ensures { result ≡ spec.is_named path.now file.now }
{
    path.starts_with("/") && &path[1..] == file.name.as_str()
}

/// The first file that a path info names.
fn named<'a>(files: &'a [StaticFile], path: &str) -> Option<&'a StaticFile>
    ensures { option_copied result ≡ find (spec.is_named path.now) files.now }
{
    files.iter().find(|file| is_named(path, file))
}

fn file_in<'a>(files: &'a [StaticFile], path: Option<&str>) -> Option<&'a StaticFile>
    ensures { option_copied result ≡ spec.file_in files.now (option_map (λ p. p.now) path.entry) }
{
    match path {
        Some(path) => named(files, path),
        None => None,
    }
}

impl<'a> StaticFiles<'a> {
    /// The file for a path info.
    fn found(self, path: Option<&str>) -> Option<&'a StaticFile>
        ensures { option_copied result ≡ spec.found self.entry.choice self.entry.files.now (option_map (λ p. p.now) path.entry) }
    {
        match self.choice {
            FileChoice::First => self.files.first(),
            FileChoice::ByPathInfo => file_in(self.files, path),
        }
    }

    /// The servlet that answers so.
    pub fn servlet(self) -> FileServlet<'a>
        ensures { ⟦<FileServlet<'a> as HttpServlet>⟧.work result
            ≡ spec.file_work self.entry.choice self.entry.files.now (option_map (λ value. value.now) self.entry.cache) }
    {
        Methods::new().get(self)
    }
}

fn is_blank(byte: u8) -> bool
    ensures { result ≡ spec.is_blank byte }
{
    byte == b' ' || byte == b'\t'
}

fn are_blanks(text: &[u8]) -> bool
    ensures { result ≡ list_all spec.is_blank text.now }
{
    text.iter().all(|byte| is_blank(*byte))
}

fn behind_blanks(text: &[u8]) -> &[u8]
    ensures { result.now ≡ spec.behind_blanks text.now }
{
    let mut rest = text;
    while let [byte, tail @ ..] = rest {
        if !is_blank(*byte) {
            return rest;
        }
        rest = tail;
    }
    rest
}

/// A tag without the mark of a weak one.
fn unmarked(text: &[u8]) -> &[u8]
    ensures { result.now ≡ spec.unmarked text.now }
{
    if begins_with(text, b"W/") {
        &text[2..]
    } else {
        text
    }
}

fn is_only(tag: &[u8], text: &[u8]) -> bool
    ensures { result ≡ spec.is_only tag.now text.now }
{
    begins_with(text, tag) && are_blanks(&text[tag.len()..])
}

/// Whether a member of a list is the tag, by the weak comparison (section 8.8.3.2).
fn is_tag(tag: &[u8], member: &[u8]) -> bool
    ensures { result ≡ spec.is_tag tag.now member.now }
{
    is_only(tag, unmarked(behind_blanks(member)))
}

fn has_member(tag: &[u8], value: &[u8]) -> bool
    ensures { result ≡ list_any (spec.is_tag tag.now) (slice_split (λ c. c == 44) value.now) }
{
    value
        .split(|byte| *byte == b',')
        .any(|member| is_tag(tag, member))
}

/// Whether a value of If-None-Match lists the tag, or is `*`.
fn lists(tag: &[u8], value: &[u8]) -> bool
    ensures { result ≡ spec.lists tag.now value.now }
{
    value == b"*".as_slice() || has_member(tag, value)
}

fn has_tag(tag: &[u8], field: &Field) -> bool
    ensures { result ≡ spec.has_tag tag.now field.now }
{
    field.name.as_str() == "if-none-match" && lists(tag, field.value.as_bytes())
}

/// Whether some field of a request says that the client has what has the tag.
fn is_current(fields: &[Field], tag: &[u8]) -> bool
    ensures { result ≡ spec.is_current fields.now tag.now }
{
    fields.iter().any(|field| has_tag(tag, field))
}

/// The field of a name in lower case.
fn field_of(name: &'static str, value: HeaderValue) -> Field
    requires { IsTrue (is_header_name name.now) }
    ensures { result ≡ spec.field_of name.now value }
{
    let name = HeaderName::from_static(name);
    Field { name, value }
}

/// Sets a field.
fn set(reply: &mut Reply, field: Field) -> Result<(), ReplyFault>
    ensures { Answers reply.old (field_result reply.old field) result reply.new }
{
    reply.set(field)
}

/// Sets a field of an exchange.
fn set_in(web: &mut Exchange<'_>, field: Field) -> Result<(), Refusal>
    ensures { CompletesPart (λ more. set_field field more) web.old web.new result }
{
    set(web.reply, field)?;
    Ok(())
}

/// Sets a field of a name in lower case to a copy of a value.
fn set_value(web: &mut Exchange<'_>, name: &'static str, value: &HeaderValue) -> Result<(), Refusal>
    requires { IsTrue (is_header_name name.now) }
    ensures { CompletesPart (λ more. set_field (spec.field_of name.now value.now) more) web.old web.new result }
{
    let value = value.clone()?;
    set_in(web, field_of(name, value))
}

fn set_cache(web: &mut Exchange<'_>, cache: Option<&HeaderValue>) -> Result<(), Refusal>
    ensures { CompletesPart (λ more. spec.set_cache (option_map (λ value. value.now) cache.entry) more) web.old web.new result }
{
    match cache {
        Some(value) => set_value(web, "cache-control", value),
        None => Ok(()),
    }
}

/// Answers that the client has it (section 15.4.5).
fn not_modified(web: &mut Exchange<'_>) -> Result<Next, Refusal>
    ensures { Completes spec.not_modified web.old web.new result }
{
    web.reply.status(304)?;
    Ok(Next::Done)
}

fn set_nosniff(web: &mut Exchange<'_>) -> Result<(), Refusal>
    ensures { CompletesPart (λ more. spec.nosniff more) web.old web.new result }
{
    set_header(web.reply, "x-content-type-options", "nosniff")?;
    Ok(())
}

/// Writes bytes of a media type.
fn write_typed(
    web: &mut Exchange<'_>,
    media_type: &'static str,
    bytes: &[u8],
) -> Result<(), Refusal>
    requires { IsTrue (is_visible_text media_type.now) }
    ensures { CompletesPart (λ more. spec.typed media_type.now bytes.now more) web.old web.new result }
{
    set_header(web.reply, "content-type", media_type)?;
    web.reply.write(bytes)?;
    Ok(())
}

/// The same, where no client is to guess another type.
fn write_as(web: &mut Exchange<'_>, media_type: &'static str, bytes: &[u8]) -> Result<(), Refusal>
    requires { IsTrue (is_visible_text media_type.now) }
    ensures { CompletesPart (λ more. spec.nosniff (spec.typed media_type.now bytes.now more)) web.old web.new result }
{
    match set_nosniff(web) {
        Ok(()) => write_typed(web, media_type, bytes),
        Err(refusal) => Err(refusal),
    }
}

/// Answers with bytes of a media type.
fn send_as(web: &mut Exchange<'_>, media_type: &'static str, bytes: &[u8]) -> Result<Next, Refusal>
    requires { IsTrue (is_visible_text media_type.now) }
    ensures { Completes (spec.sent_as media_type.now bytes.now) web.old web.new result }
{
    match write_as(web, media_type, bytes) {
        Ok(()) => Ok(Next::Done),
        Err(refusal) => Err(refusal),
    }
}

/// Answers with the bytes of a file.
fn send_bytes(web: &mut Exchange<'_>, file: &StaticFile) -> Result<Next, Refusal>
    ensures { Completes (spec.sent_bytes file.now) web.old web.new result }
{
    send_as(web, media_type(file.name.as_str()), file.bytes.as_slice())
}

/// Answers with the bytes of a file, or without where the client has them.
fn send_unless_current(
    web: &mut Exchange<'_>,
    is_current: bool,
    file: &StaticFile,
) -> Result<Next, Refusal>
    ensures { Completes (spec.unless_current is_current file.now) web.old web.new result }
{
    if is_current {
        not_modified(web)
    } else {
        send_bytes(web, file)
    }
}

/// Answers with a file.
fn send(
    web: &mut Exchange<'_>,
    cache: Option<&HeaderValue>,
    file: &StaticFile,
) -> Result<Next, Refusal>
    ensures { Completes (spec.sent (option_map (λ value. value.now) cache.entry) file.now web.old.call.now.fields) web.old web.new result }
{
    let call = web.call;
    let is_current = is_current(call.fields, file.etag.as_bytes());
    set_value(web, "etag", &file.etag)?;
    set_cache(web, cache)?;
    send_unless_current(web, is_current, file)
}

impl<'a> Get for StaticFiles<'a> {
    ghost use Rattle.sv_web.specs.Files.{static_files};

    ghost gets = { static_files };

    fn get(&mut self, web: &mut Exchange<'_>) -> Result<Next, Refusal> {
        let call = web.call;
        match self.found(call.path_info) {
            Some(file) => send(web, self.cache, file),
            None => missing(web),
        }
    }
}

/// The error 404.
fn missing(web: &mut Exchange<'_>) -> Result<Next, Refusal>
    ensures { Completes spec.missing web.old web.new result }
{
    let text = Text::from_str(web.alloc, "")?;
    Ok(Next::SendError { code: 404, text })
}
