//! What a message says beside its method, read: its target, its cookies and its parameters.

ghost use Rattle.std.specs.Prelude.{◌≡◌, ◌≢◌, codes, IfOk, IfErr};
ghost use Rattle.sv_target.specs.Cookies.{cookies_of};
ghost use Rattle.sv_target.specs.Target.{IsTarget};
ghost use Rattle.sv_connection.specs.Request.{params_in, query_bytes, request_of, HasTargetFault};

use std::alloc::{AllocError, Global};
use sv_message::RawRequest;
use sv_model::{Cookie, Param, Request, Sequence};
use sv_target::{Target, TargetFault, cookies, form, params};

/// The parts of a request that are read out of its message.
#[derive(Drop)]
pub struct ReadRequest {
    pub target: Target,
    pub cookies: Sequence<Cookie>,
    pub params: Sequence<Param>,
}

/// The bytes of a target's query; none where there is none.
fn query_of(target: &Target) -> &[u8]
    ensures { result.now ≡ query_bytes target.now.query }
{
    match &target.query {
        Some(query) => query.as_str().as_bytes(),
        None => &[],
    }
}

/// The parameters of the query, and then those of a form that the body is.
fn read_params(
    alloc: Global,
    raw: &RawRequest,
    target: &Target,
) -> Result<Sequence<Param>, AllocError>
    ensures { IfOk result (λ params. params ≡ params_in raw.now target.now) }
{
    let form = form(&raw.method, raw.fields.as_slice(), raw.body.as_slice());
    params(alloc, query_of(target), form)
}

/// The target of a request.
fn read_target(alloc: Global, raw: &RawRequest) -> Result<Target, TargetFault>
    ensures target { IfOk result (IsTarget raw.now.target) }
    ensures method { IfOk result (λ _. raw.now.method ≢ codes "CONNECT") }
    ensures fault { IfErr result (HasTargetFault raw.now) }
{
    Target::read(alloc, &raw.method, raw.target.as_str())
}

/// The target of a request, the cookies of its fields, and its parameters.
pub fn read_request(alloc: Global, raw: &RawRequest) -> Result<ReadRequest, TargetFault>
    ensures target { IfOk result (λ read. IsTarget raw.now.target read.target) }
    ensures method { IfOk result (λ read. raw.now.method ≢ codes "CONNECT") }
    ensures cookies { IfOk result (λ read. read.cookies ≡ cookies_of raw.now.fields) }
    ensures params { IfOk result (λ read. read.params ≡ params_in raw.now read.target) }
    ensures fault { IfErr result (HasTargetFault raw.now) }
{
    let target = read_target(alloc, raw)?;
    let cookies = cookies(alloc, raw.fields.as_slice())?;
    let params = read_params(alloc, raw, &target)?;
    Ok(ReadRequest {
        target,
        cookies,
        params,
    })
}

/// The request that the site is asked.
pub fn request_of(raw: RawRequest, read: ReadRequest, single: bool) -> Request
    requires cookies { read.cookies ≡ cookies_of raw.fields }
    requires params { read.params ≡ params_in raw read.target }
    ensures { result ≡ request_of single raw read.target }
{
    let ReadRequest {
        target,
        cookies,
        params,
    } = read;
    Request {
        method: raw.method,
        raw_path: target.raw_path,
        path: target.path,
        query: target.query,
        fields: raw.fields,
        cookies,
        params,
        body: raw.body,
        close: raw.close || single,
    }
}
