//! A line that has a figure.

ghost use Rattle.std.specs.Prelude.{◌≡◌, ℕ, List, IfSome, IsSome};
ghost use Rattle.std.specs.List.{after_first};
ghost use Rattle.sv_watch.specs.Exposition.{IsFigure, StartsWithBlank, is_blank};

/// A line that has a figure, in its parts.
#[derive(Clone, Copy, Debug, PartialEq, Eq)]
pub struct Figure<'a> {
    /// Such as `kegbramble_requests_total`.
    pub name: &'a str,
    /// Such as `node="0",class="2xx"`.
    pub labels: &'a str,
    /// Such as `17`.
    pub value: &'a str,
}

/// What stands after the blank that a text begins with.
fn behind_blank(text: &str) -> Option<&str>
    ensures some { IfSome result (λ rest. StartsWithBlank text.now × (rest.now ≡ after_first is_blank text.now)) }
    ensures each { StartsWithBlank text.now → IsSome result }
{
    let (between, rest) = text.split_once(' ')?;
    if between.is_empty() { Some(rest) } else { None }
}

/// The parts of a line `NAME{LABELS} VALUE`; none of any other line.
pub fn figure_of(line: &str) -> Option<Figure<'_>>
    ensures parts { IfSome result (λ figure. IsFigure line.now figure.name.now figure.labels.now figure.value.now) }
    ensures each { (name : List ℕ) → (labels : List ℕ) → (value : List ℕ) → IsFigure line.now name labels value → IsSome result }
{
    let (name, rest) = line.split_once('{')?;
    let (labels, rest) = rest.split_once('}')?;
    let value = behind_blank(rest)?;
    Some(Figure {
        name,
        labels,
        value,
    })
}
