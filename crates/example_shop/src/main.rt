//! A small web shop, served by the nodes of a cluster.
//!
//! `example_shop [OPTION ..] CONFIG JOURNAL NUMBER` runs the node of that number, and `example_shop --once CONFIG NOW` serves
//! standard input to its end; the words mean what they mean to the program `node`. A descriptor's names stand for the shop's own
//! servlets, its filter and its listener.
//!
//! A fault prints one line `example_shop: ` and its name on standard error and ends the program with its status.
#![tactic(auto)]

use example_cart::{ARTICLES, ICON, STYLE};
use example_servlets::{
    Basket, Catalogue, Checkout, ErrorPage, Guard, Kind, Login, Logout, Orders, Still, Store,
};
use std::process::ExitCode;
use sv_launch::{Application, launch, number_of};
use sv_web::Methods;

/// What is sent as it stands.
const LOOK: Still = Still {
    kind: Kind::Css,
    text: STYLE,
};

const MARK: Still = Still {
    kind: Kind::Svg,
    text: ICON,
};

fn main(rt: HostRuntime) -> ExitCode {
    let alloc = rt.alloc();
    let node = number_of(&rt);
    let store = Store {
        alloc,
        articles: &ARTICLES,
        node,
    };
    let (basket, checkout, logout) = (Basket { store }, Checkout { store }, Logout { store });
    let shop = Application::new(alloc)
        .filter("guard", Guard { node })
        .listener("orders", Orders::new())
        .servlet("catalogue", Methods::new().get(Catalogue { store }))
        .servlet("cart", Methods::new().get(basket).post(basket))
        .servlet("login", Methods::new().post(Login))
        .servlet("logout", Methods::new().get(logout).post(logout))
        .servlet("checkout", Methods::new().get(checkout).post(checkout))
        .servlet("style", Methods::new().get(LOOK))
        .servlet("icon", Methods::new().get(MARK))
        .servlet("error", ErrorPage { store });
    launch(&rt, "example_shop", &shop)
}
