//! What a servlet is asked.

use crate::attributes::RequestAttributes;
use crate::setting::Setting;
use http::Method;
use std::marker::Model;
use sv_model::{Cookie, Field, Param};

/// A request as one servlet sees it (Jakarta Servlet 6.0, chapter "The Request").
///
/// It borrows what stays the same over the dispatches of a request, so that a dispatch copies no body.
#[derive(Drop)]
pub struct Call<'a> {
    pub method: &'a Method,
    /// The path as it was sent, or that of the dispatch.
    pub request_uri: &'a str,
    /// The path of the context, empty for the context at the root.
    pub context_path: &'a str,
    pub servlet_path: &'a str,
    pub path_info: Option<&'a str>,
    /// The query as it was sent.
    pub query: Option<&'a str>,
    /// The parameters in order, decoded.
    pub params: &'a [Param],
    /// The fields in order, names in lower case.
    pub fields: &'a [Field],
    /// The pairs of all Cookie fields in order, as they were sent (RFC 6265, section 5.4).
    pub cookies: &'a [Cookie],
    pub body: &'a [u8],
    /// The initialization parameters of the context, in the order in which they were given.
    pub settings: &'a [Setting],
    pub attributes: &'a RequestAttributes,
    /// 0 at first; after an include the number that the servlet asked to be resumed with.
    pub resume: u16,
}

impl<'a> Model for Call<'a> {
    ghost use Rattle.std.specs.Option.{option_map};
    ghost use Rattle.sv_servlet.specs.Call.{Asked};

    ghost Value = { Asked };

    ghost view = { λ c. record {
      method = c.method.now;
      request_uri = c.request_uri.now;
      context_path = c.context_path.now;
      servlet_path = c.servlet_path.now;
      path_info = option_map (λ t. t.now) c.path_info;
      query = option_map (λ t.
          t.now) c.query;
      params = c.params.now;
      fields = c.fields.now;
      cookies = c.cookies.now;
      body = c.body.now;
      settings = c.settings.now;
      attributes = c.attributes.now;
      resume = c.resume;
    } };
}
