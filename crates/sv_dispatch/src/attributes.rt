//! The attributes by which a dispatch tells of another (Jakarta Servlet 6.0, sections 9.3.1, 9.4.2 and 10.9.1).

ghost use Rattle.std.specs.Prelude.{◌≡◌, OnOk, option_map};
ghost use Rattle.sv_dispatch.specs.Attributes.{attribute_name, put, with_values, with_error};

use std::alloc::{AllocError, Global};
use std::marker::Model;
use sv_servlet::RequestAttributes;

/// The dispatch that a group of five attributes tells of.
#[derive(Clone, Copy, Debug, PartialEq, Eq)]
pub enum Group {
    /// The request as it came, before its first forward.
    Forward,
    /// The target of the innermost include.
    Include,
}

/// One attribute of a group.
#[derive(Clone, Copy, Debug, PartialEq, Eq)]
pub enum Part {
    RequestUri,
    ContextPath,
    ServletPath,
    PathInfo,
    QueryString,
}

/// The values of a group; one that is absent has no attribute.
#[derive(Drop)]
pub struct Values<'a> {
    pub request_uri: &'a str,
    pub context_path: &'a str,
    pub servlet_path: &'a str,
    pub path_info: Option<&'a str>,
    pub query: Option<&'a str>,
}

impl<'a> Model for Values<'a> {
    ghost use Rattle.std.specs.Option.{option_map};
    ghost use Rattle.sv_dispatch.specs.Values.{DispatchValues};

    ghost Value = { DispatchValues };

    ghost view = { λ v. record {
      request_uri = v.request_uri.now;
      context_path = v.context_path.now;
      servlet_path = v.servlet_path.now;
      path_info = option_map
          (λ t. t.now) v.path_info;
      query = option_map (λ t. t.now) v.query;
    } };
}

/// The name of an attribute.
pub fn attribute_name(group: Group, part: Part) -> &'static str
    ensures { result.now ≡ attribute_name group part }
{
    match (group, part) {
        (Group::Forward, Part::RequestUri) => "jakarta.servlet.forward.request_uri",
        (Group::Forward, Part::ContextPath) => "jakarta.servlet.forward.context_path",
        (Group::Forward, Part::ServletPath) => "jakarta.servlet.forward.servlet_path",
        (Group::Forward, Part::PathInfo) => "jakarta.servlet.forward.path_info",
        (Group::Forward, Part::QueryString) => "jakarta.servlet.forward.query_string",
        (Group::Include, Part::RequestUri) => "jakarta.servlet.include.request_uri",
        (Group::Include, Part::ContextPath) => "jakarta.servlet.include.context_path",
        (Group::Include, Part::ServletPath) => "jakarta.servlet.include.servlet_path",
        (Group::Include, Part::PathInfo) => "jakarta.servlet.include.path_info",
        (Group::Include, Part::QueryString) => "jakarta.servlet.include.query_string",
    }
}

/// Sets an attribute, or takes it away where its value is absent.
fn put(
    attributes: &mut RequestAttributes,
    name: &str,
    value: Option<&str>,
) -> Result<(), AllocError>
    ensures { OnOk result (attributes.new ≡ put attributes.old name.now (option_map (λ t. t.now) value.entry)) }
{
    match value {
        Some(value) => attributes.insert(name, value),
        None => {
            attributes.remove(name);
            Ok(())
        }
    }
}

/// Sets the five attributes of a group.
#[tactic(auto, unfolding(crate::specs::Attributes::with_values))]
pub fn set_values(
    attributes: &mut RequestAttributes,
    group: Group,
    values: &Values<'_>,
) -> Result<(), AllocError>
    ensures { OnOk result (attributes.new ≡ with_values group values.now attributes.old) }
{
    attributes.insert(attribute_name(group, Part::RequestUri), values.request_uri)?;
    attributes.insert(
        attribute_name(group, Part::ContextPath),
        values.context_path,
    )?;
    attributes.insert(
        attribute_name(group, Part::ServletPath),
        values.servlet_path,
    )?;
    put(
        attributes,
        attribute_name(group, Part::PathInfo),
        values.path_info,
    )?;
    put(
        attributes,
        attribute_name(group, Part::QueryString),
        values.query,
    )
}

/// Sets the attributes of an error.
#[tactic(auto, unfolding(crate::specs::Attributes::with_error))]
pub fn set_error(
    alloc: Global,
    attributes: &mut RequestAttributes,
    status: u16,
    message: &str,
    request_uri: &str,
    servlet_name: &str,
) -> Result<(), AllocError>
    ensures { OnOk result (attributes.new ≡ with_error status message.now request_uri.now servlet_name.now attributes.old) }
{
    let status = format!(in alloc; "{status}")?;
    attributes.insert("jakarta.servlet.error.status_code", status.as_str())?;
    attributes.insert("jakarta.servlet.error.message", message)?;
    attributes.insert("jakarta.servlet.error.request_uri", request_uri)?;
    attributes.insert("jakarta.servlet.error.servlet_name", servlet_name)
}
