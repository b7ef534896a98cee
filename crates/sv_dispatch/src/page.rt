//! The error pages of a context (Jakarta Servlet 6.0, section 10.9).

ghost use Rattle.std.specs.Prelude.{◌≡◌, IfOk, option_map};
ghost use Rattle.sv_dispatch.specs.Pages as spec;

use std::alloc::{AllocError, Global};
use sv_model::Text;

/// What an error page is for.
#[derive(Drop)]
pub enum PageFor {
    Status(u16),
    /// The fault of a name.
    Fault(Text),
    /// Whatever no other page is for.
    Default,
}

/// An error page of a context.
#[derive(Drop)]
pub struct ErrorPage {
    pub page_for: PageFor,
    /// A path within the context.
    pub path: Text,
}

impl PageFor {
    fn is_for_status(&self, status: u16) -> bool
        ensures { result ≡ spec.is_for_status status self.now }
    {
        match self {
            PageFor::Status(its) => *its == status,
            PageFor::Fault(_) => false,
            PageFor::Default => false,
        }
    }

    fn is_for_fault(&self, name: &str) -> bool
        ensures { result ≡ spec.is_for_fault name.now self.now }
    {
        match self {
            PageFor::Status(_) => false,
            PageFor::Fault(its) => its.as_str() == name,
            PageFor::Default => false,
        }
    }

    fn is_default(&self) -> bool
        ensures { result ≡ spec.is_default self.now }
    {
        matches!(self, PageFor::Default)
    }
}

/// The path of the first page for a status.
#[tactic(auto, using(crate::proofs::PageLemmas::page_hit, crate::proofs::PageLemmas::page_miss, crate::proofs::PageLemmas::page_none))]
fn page_for_status(pages: &[ErrorPage], status: u16) -> Option<&Text>
    ensures { option_map (λ t. t.now) result ≡ spec.first_page (spec.is_for_status status) pages.now }
{
    for page in pages {
        if page.page_for.is_for_status(status) {
            return Some(&page.path);
        }
    }
    None
}

/// The path of the first page for a fault.
#[tactic(auto, using(crate::proofs::PageLemmas::page_hit, crate::proofs::PageLemmas::page_miss, crate::proofs::PageLemmas::page_none))]
fn page_for_fault<'p>(pages: &'p [ErrorPage], name: &str) -> Option<&'p Text>
    ensures { option_map (λ t. t.now) result ≡ spec.first_page (spec.is_for_fault name.now) pages.now }
{
    for page in pages {
        if page.page_for.is_for_fault(name) {
            return Some(&page.path);
        }
    }
    None
}

/// The path of the first default page.
#[tactic(auto, using(crate::proofs::PageLemmas::page_hit, crate::proofs::PageLemmas::page_miss, crate::proofs::PageLemmas::page_none))]
fn default_page(pages: &[ErrorPage]) -> Option<&Text>
    ensures { option_map (λ t. t.now) result ≡ spec.first_page (spec.is_default) pages.now }
{
    for page in pages {
        if page.page_for.is_default() {
            return Some(&page.path);
        }
    }
    None
}

/// A copy of the path of a page.
fn copied(alloc: Global, path: Option<&Text>) -> Result<Option<Text>, AllocError>
    ensures { IfOk result (λ copy. copy ≡ option_map (λ t. t.now) path.entry) }
{
    match path {
        Some(path) => Ok(Some(path.copy(alloc)?)),
        None => Ok(None),
    }
}

/// The path of the page for a status: its own, or the default.
pub fn page_of_error(
    alloc: Global,
    pages: &[ErrorPage],
    status: u16,
) -> Result<Option<Text>, AllocError>
    ensures { IfOk result (λ page. page ≡ spec.page_of_error pages.now status) }
{
    match page_for_status(pages, status) {
        Some(path) => copied(alloc, Some(path)),
        None => copied(alloc, default_page(pages)),
    }
}

/// The path of the page for a fault: its own, that of status 500, or the default.
pub fn page_of_fault(
    alloc: Global,
    pages: &[ErrorPage],
    name: &str,
) -> Result<Option<Text>, AllocError>
    ensures { IfOk result (λ page. page ≡ spec.page_of_fault pages.now name.now) }
{
    match page_for_fault(pages, name) {
        Some(path) => copied(alloc, Some(path)),
        None => page_of_error(alloc, pages, 500),
    }
}
