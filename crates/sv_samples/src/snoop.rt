//! A servlet that shows what it is asked.

ghost use Rattle.std.specs.Prelude.{◌≡◌, ◌++◌, codes, option_copied, IfOk, OnOk};
ghost use Rattle.std.specs.List.{flat_map};
ghost use Rattle.sv_samples.specs.Snoop as spec;

use http::Method;
use std::alloc::{AllocError, Global};
use sv_model::Param;
use sv_servlet::{Call, Next, Reply, RequestAttributes};
use sv_session::SessionEdit;
use sv_web::{HttpServlet, Refusal, set_plain_text};

/// Writes as plain text, a line each: the method, the paths and the query of the call, with `-` for what is absent; then
/// its parameters in order, and its attributes in order of their names.
#[derive(Drop)]
pub struct Snoop;

/// `name=value` on a line of its own.
#[tactic(auto, unfolding(crate::specs::Snoop::line))]
fn write_line(out: &mut Vec<u8>, name: &str, value: &str) -> Result<(), AllocError>
    ensures { OnOk result (out.new.items ≡ out.old.items ++ spec.line name.now value.now) }
{
    out.extend_from_slice(name.as_bytes())?;
    out.extend_from_slice(b"=")?;
    out.extend_from_slice(value.as_bytes())?;
    out.extend_from_slice(b"\n")
}

/// The text, or a dash where there is none.
fn or_dash<'a>(value: Option<&'a str>) -> &'a str
    ensures { result.now ≡ spec.or_dash (option_copied value.entry) }
{
    match value {
        Some(value) => value,
        None => "-",
    }
}

fn write_method(out: &mut Vec<u8>, method: &Method) -> Result<(), AllocError>
    ensures { OnOk result (out.new.items ≡ out.old.items ++ spec.line (codes "method") method.now) }
{
    write_line(out, "method", method.as_str())
}

/// The URI and the context path.
#[tactic(auto, unfolding(crate::specs::Snoop::address_lines))]
fn write_address(out: &mut Vec<u8>, uri: &str, context_path: &str) -> Result<(), AllocError>
    ensures { OnOk result (out.new.items ≡ out.old.items ++ spec.address_lines uri.now context_path.now) }
{
    write_line(out, "request_uri", uri)?;
    write_line(out, "context_path", context_path)
}

/// The paths within the context, and the query.
#[tactic(auto, unfolding(crate::specs::Snoop::path_lines))]
fn write_paths(out: &mut Vec<u8>, call: &Call<'_>) -> Result<(), AllocError>
    ensures { OnOk result (out.new.items ≡ out.old.items ++ spec.path_lines call.now) }
{
    write_line(out, "servlet_path", call.servlet_path)?;
    write_line(out, "path_info", or_dash(call.path_info))?;
    write_line(out, "query", or_dash(call.query))
}

fn write_params(out: &mut Vec<u8>, params: &[Param]) -> Result<(), AllocError>
    ensures { OnOk result (out.new.items ≡ out.old.items ++ flat_map spec.parameter_line params.now) }
{
    for param in params {
        out.extend_from_slice(b"p ")?;
        write_line(out, param.name.as_str(), param.value.as_str())?;
    }
    Ok(())
}

fn write_attributes(out: &mut Vec<u8>, attributes: &RequestAttributes) -> Result<(), AllocError>
    ensures { OnOk result (out.new.items ≡ out.old.items ++ flat_map spec.attribute_line attributes.now) }
{
    for (name, value) in attributes.iter() {
        out.extend_from_slice(b"a ")?;
        write_line(out, name, value)?;
    }
    Ok(())
}

/// All that the call shows.
fn call_text(alloc: Global, call: &Call<'_>) -> Result<Vec<u8>, AllocError>
    ensures { IfOk result (λ text. text.items ≡ spec.call_text call.now) }
{
    let mut text = Vec::new(alloc);
    write_method(&mut text, call.method)?;
    write_address(&mut text, call.request_uri, call.context_path)?;
    write_paths(&mut text, call)?;
    write_params(&mut text, call.params)?;
    write_attributes(&mut text, call.attributes)?;
    Ok(text)
}

impl HttpServlet for Snoop {
    ghost use Rattle.sv_samples.specs.Snoop.{snoop};

    ghost work = { λ _. snoop };

    fn serve(
        &mut self,
        alloc: Global,
        call: &Call<'_>,
        _edit: &mut SessionEdit,
        reply: &mut Reply,
    ) -> Result<Next, Refusal> {
        set_plain_text(reply)?;
        let text = call_text(alloc, call)?;
        reply.write(text.as_slice())?;
        Ok(Next::Done)
    }
}
