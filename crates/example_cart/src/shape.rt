//! What a picture is drawn with.

ghost use Rattle.std.specs.Prelude.{◌≡◌, ◌++◌, OnOk};
ghost use Rattle.std.specs.List.{flat_map};
ghost use Rattle.example_cart.specs.Shape.{shape_html};

use crate::markup::{
    ALONG, BEFORE_ACROSS, BEFORE_CIRCLE_FILL, BEFORE_DOWN, BEFORE_FILL, BEFORE_RADIUS,
    BEHIND_SHAPE, LINE_END,
};
use std::alloc::AllocError;
use sv_web::{Page, Piece};

/// A shape of a picture of 64 by 64 units, as an element of SVG.
#[derive(Clone, Copy, Debug)]
pub enum Shape {
    /// What a path encloses, and its colour before it.
    Path(&'static str, &'static str),
    /// A circle: how far right and how far down its middle is, its radius, and its colour.
    Circle(u8, u8, u8, &'static str),
    /// Any other element, without the end of its line.
    Element(&'static str),
}

/// Adds a shape.
#[tactic(auto, unfolding(crate::specs::Shape::shape_html))]
fn write_shape(page: &mut Page, shape: Shape) -> Result<(), AllocError>
    ensures { OnOk result (page.new ≡ page.old ++ shape_html shape) }
{
    match shape {
        Shape::Path(fill, path) => page.write(&[
            Piece::Markup(BEFORE_FILL),
            Piece::Markup(fill),
            Piece::Markup(ALONG),
            Piece::Markup(path),
            Piece::Markup(BEHIND_SHAPE),
        ]),
        Shape::Circle(across, down, radius, fill) => page.write(&[
            Piece::Markup(BEFORE_ACROSS),
            Piece::Number(u64::from(across)),
            Piece::Markup(BEFORE_DOWN),
            Piece::Number(u64::from(down)),
            Piece::Markup(BEFORE_RADIUS),
            Piece::Number(u64::from(radius)),
            Piece::Markup(BEFORE_CIRCLE_FILL),
            Piece::Markup(fill),
            Piece::Markup(BEHIND_SHAPE),
        ]),
        Shape::Element(text) => page.write(&[Piece::Markup(text), Piece::Markup(LINE_END)]),
    }
}

/// Adds the shapes of a picture, each over those before it.
pub fn write_shapes(page: &mut Page, shapes: &[Shape]) -> Result<(), AllocError>
    ensures { OnOk result (page.new ≡ page.old ++ flat_map shape_html shapes.now) }
{
    for shape in shapes {
        write_shape(page, *shape)?;
    }
    Ok(())
}
