//! What a dispatch shows of the request: the request as it came, and what forwards and includes put over it.
//!
//! The parts that a dispatch changes are shared with the dispatches inside it, so none is copied on the way down.

ghost use Rattle.std.specs.Prelude.{◌≡◌, IfOk, option_map};
ghost use Rattle.std.specs.Rc.{rc_value};
ghost use Rattle.sv_dispatch.specs.Sight.{call_of, first_sight};

use http::Method;
use std::alloc::AllocError;
use std::marker::Model;
use std::rc::Rc;
use sv_model::{Cookie, Field, Param, Sequence, Text};
use sv_servlet::{Call, RequestAttributes, Setting};

/// The paths that a forward puts in the place of the request's.
#[derive(Drop)]
pub struct Shown {
    pub request_uri: Text,
    pub servlet_path: Text,
    pub path_info: Option<Text>,
}

/// What a dispatch shows. Each part that is none is as in the request.
pub struct View<'a> {
    pub request: &'a Call<'a>,
    pub shown: Option<Rc<Shown>>,
    pub query: Option<Rc<Text>>,
    pub params: Option<Rc<Sequence<Param>>>,
    pub attributes: Option<Rc<RequestAttributes>>,
    /// Whether the dispatch lies below an include.
    pub is_included: bool,
}

/// By hand, so that the proof of a caller has one step for it and not one for each part that may be there.
impl<'a> Drop for View<'a> {
    fn drop(self) {
        let View {
            request: _,
            shown: _,
            query: _,
            params: _,
            attributes: _,
            is_included: _,
        } = self;
    }
}

impl<'a> Model for View<'a> {
    ghost use Rattle.std.specs.Prelude.{unwrap_or, option_map};
    ghost use Rattle.std.specs.Rc.{rc_value};
    ghost use Rattle.sv_dispatch.specs.Sight.{Sight, shown_of, query_over};

    ghost Value = { Sight };

    ghost view = { λ v. record {
      request = v.request.now;
      shown = unwrap_or (option_map rc_value v.shown) (shown_of v.request.now);
      query = query_over
          (option_map rc_value v.query) v.request.now.query;
      params = unwrap_or (option_map rc_value v.params) v.request.now.params;
      attributes = unwrap_or
          (option_map rc_value v.attributes) v.request.now.attributes;
      is_included = v.is_included;
    } };
}

/// The same part again, without a copy.
fn share<T: Drop>(part: &Option<Rc<T>>) -> Result<Option<Rc<T>>, AllocError>
    ensures { IfOk result (λ again. option_map rc_value again ≡ option_map rc_value part.now) }
{
    match part {
        Some(part) => Ok(Some(part.clone()?)),
        None => Ok(None),
    }
}

impl<'a> View<'a> {
    /// What the request shows as it came.
    pub fn of(request: &'a Call<'a>) -> View<'a>
        ensures { result ≡ first_sight request.now }
    {
        View {
            request,
            shown: None,
            query: None,
            params: None,
            attributes: None,
            is_included: false,
        }
    }

    /// The same view again; its parts are shared.
    pub fn again(&self) -> Result<View<'a>, AllocError>
        ensures { IfOk result (λ again. again ≡ self.now) }
    {
        Ok(View {
            request: self.request,
            shown: share(&self.shown)?,
            query: share(&self.query)?,
            params: share(&self.params)?,
            attributes: share(&self.attributes)?,
            is_included: self.is_included,
        })
    }

    /// Whether the dispatch lies below an include.
    pub fn is_included(&self) -> bool
        ensures { result ≡ self.now.is_included }
    {
        self.is_included
    }

    pub fn context_path(&self) -> &str
        ensures { result.now ≡ self.now.request.context_path }
    {
        let request = self.request;
        request.context_path
    }

    fn method(&self) -> &Method
        ensures { result.now ≡ self.now.request.method }
    {
        let request = self.request;
        request.method
    }

    fn fields(&self) -> &[Field]
        ensures { result.now ≡ self.now.request.fields }
    {
        let request = self.request;
        request.fields
    }

    fn cookies(&self) -> &[Cookie]
        ensures { result.now ≡ self.now.request.cookies }
    {
        let request = self.request;
        request.cookies
    }

    fn settings(&self) -> &[Setting]
        ensures { result.now ≡ self.now.request.settings }
    {
        let request = self.request;
        request.settings
    }

    fn body(&self) -> &[u8]
        ensures { result.now ≡ self.now.request.body }
    {
        let request = self.request;
        request.body
    }

    fn request_uri(&self) -> &str
        ensures { result.now ≡ self.now.shown.request_uri }
    {
        match &self.shown {
            Some(shown) => shown.request_uri.as_str(),
            None => {
                let request = self.request;
                request.request_uri
            }
        }
    }

    fn servlet_path(&self) -> &str
        ensures { result.now ≡ self.now.shown.servlet_path }
    {
        match &self.shown {
            Some(shown) => shown.servlet_path.as_str(),
            None => {
                let request = self.request;
                request.servlet_path
            }
        }
    }

    fn path_info(&self) -> Option<&str>
        ensures { option_map (λ t. t.now) result ≡ self.now.shown.path_info }
    {
        match &self.shown {
            Some(shown) => match &shown.path_info {
                Some(info) => Some(info.as_str()),
                None => None,
            },
            None => {
                let request = self.request;
                request.path_info
            }
        }
    }

    fn query(&self) -> Option<&str>
        ensures { option_map (λ t. t.now) result ≡ self.now.query }
    {
        match &self.query {
            Some(query) => Some(query.as_str()),
            None => {
                let request = self.request;
                request.query
            }
        }
    }

    pub fn params(&self) -> &[Param]
        ensures { result.now ≡ self.now.params }
    {
        match &self.params {
            Some(params) => params.as_slice(),
            None => {
                let request = self.request;
                request.params
            }
        }
    }

    pub fn attributes(&self) -> &RequestAttributes
        ensures { result.now ≡ self.now.attributes }
    {
        match &self.attributes {
            Some(attributes) => &**attributes,
            None => {
                let request = self.request;
                request.attributes
            }
        }
    }

    /// The call of a servlet or a filter of the dispatch.
    #[inline(always)]
    pub fn call(&self, resume: u16) -> Call<'_>
        ensures { result ≡ call_of self.now resume }
    {
        Call {
            method: self.method(),
            request_uri: self.request_uri(),
            context_path: self.context_path(),
            servlet_path: self.servlet_path(),
            path_info: self.path_info(),
            query: self.query(),
            params: self.params(),
            fields: self.fields(),
            cookies: self.cookies(),
            body: self.body(),
            settings: self.settings(),
            attributes: self.attributes(),
            resume,
        }
    }
}
