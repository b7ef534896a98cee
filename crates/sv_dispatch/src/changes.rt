//! What a forward, an include and an error put over what a dispatch shows.

ghost use Rattle.std.specs.Prelude.{◌≡◌, IfOk, OnOk, option_map};
ghost use Rattle.sv_dispatch.specs.Sight.{attributed, forwarded, query_over, included, joined, errored, with_params, with_forward_values};

use crate::attributes::{Group, Values, set_error, set_values};
use crate::destination::Destination;
use crate::view::{Shown, View};
use std::alloc::{AllocError, Global};
use std::rc::Rc;
use sv_model::{Copied, Param, Sequence, Text};

/// A value that may be shared.
fn shared<T: Drop>(alloc: Global, value: T) -> Result<Rc<T>, AllocError>
    ensures { IfOk result (λ part. part.value ≡ value) }
{
    match Rc::new(alloc, value) {
        Ok(part) => Ok(part),
        Err(_) => Err(AllocError),
    }
}

/// Parameters that stand before others.
fn joined(
    alloc: Global,
    front: &Sequence<Param>,
    others: &[Param],
) -> Result<Sequence<Param>, AllocError>
    ensures { IfOk result (λ all. all ≡ joined front.now others.now) }
{
    let mut all = front.copy(alloc)?;
    for param in others {
        all.push(param.copy(alloc)?)?;
    }
    Ok(all)
}

/// A text that may be there, in place.
fn text_of(text: &Option<Text>) -> Option<&str>
    ensures { option_map (λ t. t.now) result ≡ text.now }
{
    match text {
        Some(text) => Some(text.as_str()),
        None => None,
    }
}

impl<'a> View<'a> {
    /// The parameters of a target stand before the others.
    fn with_params(&mut self, alloc: Global, params: &Sequence<Param>) -> Result<(), AllocError>
        ensures { OnOk result (self.new ≡ with_params self.old params.now) }
    {
        if params.len() == 0 {
            return Ok(());
        }
        let all = joined(alloc, params, self.params())?;
        self.params = Some(shared(alloc, all)?);
        Ok(())
    }

    /// A forward to a target, or an error dispatch to it.
    pub fn forwarded(
        self,
        alloc: Global,
        target: Destination,
        servlet_path: Text,
        path_info: Option<Text>,
    ) -> Result<View<'a>, AllocError>
        ensures { IfOk result (λ view. view ≡ forwarded self.entry target servlet_path path_info) }
    {
        let mut view = self;
        view.with_params(alloc, &target.params)?;
        view.with_forward_values(alloc)?;
        view.showing(alloc, target, servlet_path, path_info)
    }

    /// The paths and the query of a target in the place of the request's.
    fn showing(
        self,
        alloc: Global,
        target: Destination,
        servlet_path: Text,
        path_info: Option<Text>,
    ) -> Result<View<'a>, AllocError>
        ensures { IfOk result (λ view. view ≡ record self.entry {
          query = query_over target.query self.entry.query;
          shown = record
              { request_uri = target.request_uri; servlet_path = servlet_path; path_info = path_info };
        }) }
    {
        let mut view = self;
        let (request_uri, query) = target.into_shown();
        view.shown = Some(shared(
            alloc,
            Shown {
                request_uri,
                servlet_path,
                path_info,
            },
        )?);
        if let Some(query) = query {
            view.query = Some(shared(alloc, query)?);
        }
        Ok(view)
    }

    /// The values of the request as it came, unless an earlier forward has set them.
    fn with_forward_values(&mut self, alloc: Global) -> Result<(), AllocError>
        ensures { OnOk result (self.new ≡ with_forward_values self.old) }
    {
        if self
            .attributes()
            .get("jakarta.servlet.forward.request_uri")
            .is_some()
        {
            return Ok(());
        }
        let mut attributes = self.attributes().copy()?;
        let request = self.request;
        set_values(
            &mut attributes,
            Group::Forward,
            &Values {
                request_uri: request.request_uri,
                context_path: request.context_path,
                servlet_path: request.servlet_path,
                path_info: request.path_info,
                query: request.query,
            },
        )?;
        self.attributes = Some(shared(alloc, attributes)?);
        Ok(())
    }

    /// An include of a target: the paths and the query stay, and attributes show the target's.
    pub fn included<'t>(
        self,
        alloc: Global,
        target: &'t Destination,
        servlet_path: &'t Text,
        path_info: &'t Option<Text>,
    ) -> Result<View<'a>, AllocError>
        ensures { IfOk result (λ view. view ≡ included self.entry target.now servlet_path.now path_info.now) }
    {
        let mut view = self;
        view.with_params(alloc, &target.params)?;
        let mut attributes = view.attributes().copy()?;
        let context_path = view.context_path();
        set_values(
            &mut attributes,
            Group::Include,
            &Values {
                request_uri: target.request_uri.as_str(),
                context_path,
                servlet_path: servlet_path.as_str(),
                path_info: text_of(path_info),
                query: text_of(&target.query),
            },
        )?;
        view.attributes = Some(shared(alloc, attributes)?);
        view.is_included = true;
        Ok(view)
    }

    /// With an attribute more, or with another value of it.
    pub fn set_attribute(
        &mut self,
        alloc: Global,
        name: &str,
        value: &str,
    ) -> Result<(), AllocError>
        ensures { OnOk result (self.new ≡ attributed self.old name.now value.now) }
    {
        let mut attributes = self.attributes().copy()?;
        attributes.insert(name, value)?;
        self.attributes = Some(shared(alloc, attributes)?);
        Ok(())
    }

    /// What an error dispatch shows beside a forward.
    pub fn errored(
        self,
        alloc: Global,
        status: u16,
        message: &str,
        servlet_name: &str,
    ) -> Result<View<'a>, AllocError>
        ensures { IfOk result (λ view. view ≡ errored self.entry status message.now servlet_name.now) }
    {
        let mut view = self;
        let mut attributes = view.attributes().copy()?;
        let request = view.request;
        set_error(
            alloc,
            &mut attributes,
            status,
            message,
            request.request_uri,
            servlet_name,
        )?;
        view.attributes = Some(shared(alloc, attributes)?);
        Ok(view)
    }
}
