//! Stages that are built an object at a time, each object ready.

ghost use Rattle.std.specs.Prelude.{◌≡◌};
ghost use Rattle.sv_dispatch.specs.Stages.{IsSound, table_of};
ghost use Rattle.sv_servlet.specs.declared.servlet.Phase.TheVariants.{Ready};

use crate::fault::RowFault;
use std::alloc::Global;
use sv_dispatch::{ErrorPage, Hosted, PageFor, Stage};
use sv_mapping::{Dispatchers, FilterMapping, FilterTarget, Mappings, Pattern};
use sv_model::{Key, Secret, Text};
use sv_servlet::{Filter, Reply, Servlet};
use sv_session::SessionEdit;

/// A stage with no objects.
pub fn empty_stage<S: Servlet, F: Filter>(alloc: Global) -> Stage<S, F>
    ensures { IsSound (table_of S.Servlet F.Filter result) }
{
    let fresh = (Key { home: 0, serial: 1 }, Secret([0; 16]));
    Stage {
        servlets: Vec::new(alloc),
        filters: Vec::new(alloc),
        patterns: Mappings::new(alloc),
        chains: Vec::new(alloc),
        pages: Vec::new(alloc),
        edit: SessionEdit::begin(alloc, None, 0, 1_800, 1_000, fresh),
        reply: Reply::new(alloc),
    }
}

/// A servlet that is ready, at a path that is its name too.
pub fn add_servlet<S: Servlet, F: Filter>(
    alloc: Global,
    stage: &mut Stage<S, F>,
    path: &str,
    servlet: S,
) -> Result<(), RowFault>
    requires sound { IsSound (table_of S.Servlet F.Filter stage.old) }
    requires ready { S.servlet_phase servlet ≡ Ready }
    ensures { IsSound (table_of S.Servlet F.Filter stage.new) }
{
    let pattern = Pattern::read(alloc, path)?;
    let name = Text::from_str(alloc, path)?;
    stage.patterns.add(pattern, stage.servlets.len())?;
    stage.servlets.push(Hosted {
        name,
        object: servlet,
        is_ready: true,
    })?;
    Ok(())
}

/// A filter that is ready, on every path, in dispatches of these kinds.
pub fn add_filter<S: Servlet, F: Filter>(
    alloc: Global,
    stage: &mut Stage<S, F>,
    dispatchers: Dispatchers,
    filter: F,
) -> Result<(), RowFault>
    requires sound { IsSound (table_of S.Servlet F.Filter stage.old) }
    requires ready { F.filter_phase filter ≡ Ready }
    ensures { IsSound (table_of S.Servlet F.Filter stage.new) }
{
    let target = FilterTarget::Pattern(Pattern::read(alloc, "/*")?);
    let at = stage.filters.len();
    stage.filters.push(Hosted {
        name: Text::new(alloc),
        object: filter,
        is_ready: true,
    })?;
    stage.chains.push(FilterMapping {
        filter: at,
        target,
        dispatchers,
    })?;
    Ok(())
}

/// An error page.
pub fn add_page<S: Servlet, F: Filter>(
    alloc: Global,
    stage: &mut Stage<S, F>,
    page_for: PageFor,
    path: &str,
) -> Result<(), RowFault>
    requires { IsSound (table_of S.Servlet F.Filter stage.old) }
    ensures { IsSound (table_of S.Servlet F.Filter stage.new) }
{
    let path = Text::from_str(alloc, path)?;
    stage.pages.push(ErrorPage { page_for, path })?;
    Ok(())
}
