//! The objects of a context, with their names and marks.

ghost use Rattle.std.specs.Prelude.{◌≡◌};
ghost use Rattle.sv_dispatch.specs.Rows.{labels, ready_at, name_at};

use sv_model::Text;

/// An object of a context.
#[derive(Drop)]
pub struct Hosted<O> {
    /// Its name in the descriptor.
    pub name: Text,
    pub object: O,
    /// Whether it may be called: its initialisation succeeded.
    pub is_ready: bool,
}

/// The servlet of a number, where it may be called.
#[tactic(auto, using(crate::proofs::ViewLemmas::ready_none, crate::proofs::ViewLemmas::ready_some))]
pub fn ready_at<O>(all: &Vec<Hosted<O>>, servlet: Option<usize>) -> Option<usize>
    ensures { result ≡ ready_at (labels all.now.items) servlet }
{
    let Some(at) = servlet else {
        return None;
    };
    match all.get(at) {
        Some(hosted) => if hosted.is_ready { Some(at) } else { None },
        None => None,
    }
}

/// The name of the servlet of a number, empty where there is none.
#[tactic(auto, using(crate::proofs::ViewLemmas::name_none, crate::proofs::ViewLemmas::name_some))]
pub fn name_at<O>(all: &Vec<Hosted<O>>, servlet: Option<usize>) -> &str
    ensures { result.now ≡ name_at (labels all.now.items) servlet }
{
    let Some(at) = servlet else {
        return "";
    };
    match all.get(at) {
        Some(hosted) => hosted.name.as_str(),
        None => "",
    }
}
