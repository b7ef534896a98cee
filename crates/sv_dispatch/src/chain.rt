//! The filters round a servlet.

ghost use Rattle.std.specs.Prelude.{◌≡◌, IfOk, All, OnOk};
ghost use Rattle.sv_dispatch.specs.Dispatching.{begun, befores, afters, chain_of, passes, shown_behind, visit};
ghost use Rattle.sv_dispatch.specs.Rows.{IsReadyAt, labels_of_rows, ready_at};
ghost use Rattle.sv_dispatch.specs.Sight.{call_of};
ghost use Rattle.sv_dispatch.specs.Stages.{table_of, lent_of, IsSound};
ghost use Rattle.sv_mapping.specs.Filter.{chain};

use crate::calls::{after_at, before_at};
use crate::hosted::ready_at;
use crate::stage::Stage;
use crate::view::View;
use std::alloc::{AllocError, Global};
use sv_mapping::{Dispatcher, filters_for};
use sv_servlet::{Before, Filter, Servlet};

/// What stands after the filter is called.
fn passes(before: &Before) -> bool
    ensures { result ≡ passes before.now }
{
    matches!(before, Before::Pass | Before::PassWith { .. })
}

/// What the dispatch shows after a filter.
fn shown_behind<'a>(alloc: Global, view: View<'a>, before: &Before) -> Result<View<'a>, AllocError>
    ensures { IfOk result (λ shown. shown ≡ shown_behind view.entry before.now) }
{
    let mut view = view;
    if let Before::PassWith { name, value } = before {
        view.set_attribute(alloc, name.as_str(), value.as_str())?;
    }
    Ok(view)
}

/// `before` along a chain, until one does not pass; what the dispatch then shows.
pub fn run_befores<'a, S: Servlet, F: Filter>(
    alloc: Global,
    stage: &mut Stage<S, F>,
    view: View<'a>,
    chain: &[usize],
) -> Result<(Vec<usize>, View<'a>, Before), AllocError>
    requires { All (IsReadyAt (table_of S.Servlet F.Filter stage.old).filters) chain.now }
    ensures same { table_of S.Servlet F.Filter stage.new ≡ table_of S.Servlet F.Filter stage.old }
    ensures begun { IfOk result (λ r. begun r.0.items r.1 r.2 (lent_of stage.new)
        ≡ befores (table_of S.Servlet F.Filter stage.old).filters chain.now view.entry (lent_of stage.old)) }
{
    let mut passed = Vec::new(alloc);
    let mut view = view;
    for place in chain {
        let k = *place;
        let before = before_at(
            &mut stage.filters,
            k,
            &view.call(0),
            &mut stage.edit,
            &mut stage.reply,
        )?;
        if !passes(&before) {
            return Ok((passed, view, before));
        }
        view = shown_behind(alloc, view, &before)?;
        passed.push(k)?;
    }
    Ok((passed, view, Before::Pass))
}

/// `after` of the filters that passed, in reverse.
pub fn run_afters<S: Servlet, F: Filter>(
    stage: &mut Stage<S, F>,
    view: &View<'_>,
    mut passed: Vec<usize>,
) -> Result<(), AllocError>
    requires { All (IsReadyAt (table_of S.Servlet F.Filter stage.old).filters) passed.items }
    ensures same { table_of S.Servlet F.Filter stage.new ≡ table_of S.Servlet F.Filter stage.old }
    ensures lent { OnOk result (lent_of stage.new ≡ afters (table_of S.Servlet F.Filter stage.old).filters passed.items
        (call_of view.now 0) (lent_of stage.old)) }
{
    while let Some(k) = passed.pop() {
        after_at(
            &mut stage.filters,
            k,
            &view.call(0),
            &mut stage.edit,
            &mut stage.reply,
        )?;
    }
    Ok(())
}

/// `before` of the filters of a dispatch to a path, which then shows what they have set.
pub fn begin<'a, S: Servlet, F: Filter>(
    alloc: Global,
    stage: &mut Stage<S, F>,
    dispatcher: Dispatcher,
    view: View<'a>,
    path: &str,
    servlet: Option<usize>,
) -> Result<(Vec<usize>, View<'a>, Before), AllocError>
    requires { IsSound (table_of S.Servlet F.Filter stage.old) }
    ensures same { table_of S.Servlet F.Filter stage.new ≡ table_of S.Servlet F.Filter stage.old }
    ensures ready { IfOk result (λ r. All (IsReadyAt (table_of S.Servlet F.Filter stage.new).filters) r.0.items) }
    ensures begun { IfOk result (λ r. begun r.0.items r.1 r.2 (lent_of stage.new)
        ≡ befores (table_of S.Servlet F.Filter stage.old).filters
        (chain_of (table_of S.Servlet F.Filter stage.old) (visit dispatcher view.entry path.now servlet)) view.entry (lent_of stage.old)) }
{
    let chain = chain_of(alloc, stage, dispatcher, path, servlet)?;
    run_befores(alloc, stage, view, chain.as_slice())
}

/// The filters of a dispatch to a path, by their numbers.
pub fn chain_of<S: Servlet, F: Filter>(
    alloc: Global,
    stage: &Stage<S, F>,
    dispatcher: Dispatcher,
    path: &str,
    servlet: Option<usize>,
) -> Result<Vec<usize>, AllocError>
    ensures { IfOk result (λ filters. filters.items ≡ chain (table_of S.Servlet F.Filter stage.now).chains path.now servlet dispatcher) }
{
    match filters_for(alloc, stage.chains.as_slice(), path, servlet, dispatcher) {
        Ok(chain) => Ok(chain),
        Err(_) => Err(AllocError),
    }
}

/// The servlet of a number, where it may be called.
pub fn servlet_at<S: Servlet, F: Filter>(
    stage: &Stage<S, F>,
    servlet: Option<usize>,
) -> Option<usize>
    ensures { result ≡ ready_at (labels_of_rows (table_of S.Servlet F.Filter stage.now).servlets) servlet }
{
    ready_at(&stage.servlets, servlet)
}
