//! The pictures of the shop, in shapes; and its mark.

use crate::shape::Shape;
use crate::shape::Shape::{Circle, Element, Path};

/// An oak barrel with two hoops.
pub const BARREL: [Shape; 3] = [
    Path("#b5763a", "M16 8h32c6 14 6 34 0 48H16c-6-14-6-34 0-48z"),
    Path(
        "#8a5526",
        "M23 8c-3 15-3 33 0 48h3c-2-15-2-33 0-48zm15 0c2 15 2 33 0 48h3c3-15 3-33 0-48z",
    ),
    Path("#4a4f57", "M13 17h38l1 5H12zM12 42h40l-1 5H13z"),
];

/// A tap with its handle.
pub const TAP: [Shape; 4] = [
    Path("#8a6a1f", "M6 24h9v20H6z"),
    Path(
        "#c9982f",
        "M15 28h25c8 0 13 5 13 13v11H43V42c0-2-1-3-3-3H15z",
    ),
    Path("#a87a1c", "M27 16h6v12h-6z"),
    Path("#6b3b1f", "M18 9h24a4 4 0 0 1 0 8H18a4 4 0 0 1 0-8z"),
];

/// A cone of hops, and an ear of barley.
pub const HOPS: [Shape; 4] = [
    Path(
        "#5d8a3a",
        "M23 10c11 7 15 18 10 33-4 9-16 9-20 0-5-15-1-26 10-33z",
    ),
    Path("#44692a", "M23 17l8 6-8 6-8-6zm0 13l10 7-10 7-10-7z"),
    Path(
        "#c99a3b",
        "M47 14c4 5 4 10 0 15-4-5-4-10 0-15zm9 11c0 6-3 10-8 12 0-6 3-10 8-12zm-18 0c5 2 8 6 8 12-5-2-8-6-8-12zm18 12c0 6-3 10-8 12 0-6 3-10 8-12zm-18 0c5 2 8 6 8 12-5-2-8-6-8-12z",
    ),
    Path("#9a7327", "M46 30h2v27h-2z"),
];

/// A packet of yeast.
pub const YEAST: [Shape; 6] = [
    Path("#e3d3a8", "M14 10h36v46H14z"),
    Path("#bfa973", "M14 10h36v5H14zM14 51h36v5H14z"),
    Path("#7a1f3d", "M14 22h36v20H14z"),
    Circle(26, 32, 5, "#f4ecdf"),
    Circle(36, 29, 4, "#f4ecdf"),
    Circle(40, 36, 3, "#f4ecdf"),
];

/// A crate with bottles.
pub const BOTTLES: [Shape; 4] = [
    Path(
        "#3f6b4a",
        "M15 8h4v9l4 5v14H11V22l4-5zm15 0h4v9l4 5v14H26V22l4-5zm15 0h4v9l4 5v14H41V22l4-5z",
    ),
    Path("#c9982f", "M14 6h6v4h-6zm15 0h6v4h-6zm15 0h6v4h-6z"),
    Path("#9a6a36", "M6 32h52v24H6z"),
    Path("#7a4f22", "M6 39h52v3H6zM6 47h52v3H6z"),
];

/// Two crown caps.
pub const CAPS: [Shape; 4] = [
    Element(
        r##"<circle cx="24" cy="25" r="16" fill="#b03a2e" stroke="#7d241b" stroke-width="4" stroke-dasharray="5 3"/>"##,
    ),
    Circle(24, 25, 9, "#c8574b"),
    Element(
        r##"<circle cx="43" cy="43" r="14" fill="#c9982f" stroke="#8a6a1f" stroke-width="4" stroke-dasharray="5 3"/>"##,
    ),
    Circle(43, 43, 8, "#dcb357"),
];

/// A thermometer with its scale.
pub const THERMOMETER: [Shape; 4] = [
    Element(
        r##"<path fill="#eef2f4" stroke="#5b6770" stroke-width="3" d="M27 11a5 5 0 0 1 10 0v27a11 11 0 1 1-10 0z"/>"##,
    ),
    Circle(32, 47, 7, "#b03a2e"),
    Path("#b03a2e", "M30 20h4v24h-4z"),
    Path("#5b6770", "M41 14h7v2h-7zm0 8h5v2h-5zm0 8h7v2h-7z"),
];

/// An apron with a pocket.
pub const APRON: [Shape; 3] = [
    Element(
        r##"<path fill="none" stroke="#2c435a" stroke-width="3" d="M24 20C20 4 44 4 40 20M18 32H8M46 32h10"/>"##,
    ),
    Path("#3c5a78", "M24 16h16v10l8 6v26H16V32l8-6z"),
    Path("#2c435a", "M24 38h16v11H24z"),
];

/// A funnel.
pub const FUNNEL: [Shape; 3] = [
    Path("#8b98a3", "M8 12h48L37 36v16l-10 6V36z"),
    Path("#6d7983", "M6 9h52v6H6z"),
    Path("#a9b4bd", "M18 19h16L29 32z"),
];

/// A glass of bramble jam.
pub const JAM: [Shape; 7] = [
    Path("#c9a26a", "M17 9h30v8H17z"),
    Path(
        "#5a1836",
        "M16 17h32c3 3 4 5 4 8v28a4 4 0 0 1-4 4H16a4 4 0 0 1-4-4V25c0-3 1-5 4-8z",
    ),
    Path("#f4ecdf", "M18 28h28v20H18z"),
    Circle(29, 36, 3, "#7a1f4d"),
    Circle(35, 36, 3, "#7a1f4d"),
    Circle(32, 41, 3, "#7a1f4d"),
    Path("#4f7a34", "M32 33c0-3 2-5 5-4 0 3-2 5-5 4z"),
];

/// A bramble: the mark of the shop, as a browser shows it beside the title.
pub const ICON: &str = r##"<svg xmlns="http://www.w3.org/2000/svg" viewBox="0 0 64 64">
<path fill="#4f7a34" d="M31 18C28 8 36 2 48 4c-1 11-7 16-17 14z"/>
<g fill="#7a1f4d">
<circle cx="24" cy="26" r="9"/>
<circle cx="40" cy="26" r="9"/>
<circle cx="17" cy="38" r="9"/>
<circle cx="32" cy="39" r="9"/>
<circle cx="47" cy="38" r="9"/>
<circle cx="25" cy="51" r="9"/>
<circle cx="40" cy="51" r="9"/>
</g>
<g fill="#b0507d">
<circle cx="22" cy="23" r="2"/>
<circle cx="38" cy="23" r="2"/>
<circle cx="30" cy="36" r="2"/>
</g>
</svg>
"##;
