//! What the shop sells.

use crate::pictures::{APRON, BARREL, BOTTLES, CAPS, FUNNEL, HOPS, JAM, TAP, THERMOMETER, YEAST};
use crate::shape::Shape;

/// An article of the catalogue.
#[derive(Clone, Copy, Debug)]
pub struct Article {
    pub name: &'static str,
    /// In cents.
    pub price: u32,
    /// Its shapes, each over those before it.
    pub picture: &'static [Shape],
}

/// The catalogue. An article's number is its place, from 0.
pub const ARTICLES: [Article; 10] = [
    Article {
        name: "Oak barrel, 30 litres",
        price: 18_900,
        picture: &BARREL,
    },
    Article {
        name: "Brass tap",
        price: 2_450,
        picture: &TAP,
    },
    Article {
        name: "Hops & malt, a kilogram each",
        price: 1_120,
        picture: &HOPS,
    },
    Article {
        name: "Yeast \"Kegbramble\"",
        price: 495,
        picture: &YEAST,
    },
    Article {
        name: "Bottles, a crate of 20",
        price: 1_600,
        picture: &BOTTLES,
    },
    Article {
        name: "Crown caps, 100",
        price: 350,
        picture: &CAPS,
    },
    Article {
        name: "Thermometer, < 100 degrees",
        price: 890,
        picture: &THERMOMETER,
    },
    Article {
        name: "Brewer's apron",
        price: 2_200,
        picture: &APRON,
    },
    Article {
        name: "Funnel",
        price: 275,
        picture: &FUNNEL,
    },
    Article {
        name: "Bramble jam",
        price: 640,
        picture: &JAM,
    },
];
