//! The markup of the pages: all that is on them beside texts, numbers and prices.

pub const BEFORE_BASE: &str = r#"<!DOCTYPE html>
<html lang="en">
<head>
<meta charset="utf-8">
<meta name="viewport" content="width=device-width, initial-scale=1">
<meta name="color-scheme" content="light dark">
<base href=""#;

pub const BEFORE_TITLE: &str = r#"/">
<link rel="icon" href="icon.svg" type="image/svg+xml">
<link rel="stylesheet" href="style.css">
<title>"#;

pub const BEFORE_SKIP: &str = r#" - Kegbramble</title>
</head>
<body>
<a class="skip" href=""#;

pub const BEFORE_COUNT: &str = r##"#main">Skip to the content</a>
<header>
<a class="brand" href="catalogue"><svg class="mark" viewBox="0 0 64 64" aria-hidden="true" focusable="false">
<path fill="#4f7a34" d="M31 18C28 8 36 2 48 4c-1 11-7 16-17 14z"/>
<g fill="#7a1f4d">
<circle cx="24" cy="26" r="9"/>
<circle cx="40" cy="26" r="9"/>
<circle cx="17" cy="38" r="9"/>
<circle cx="32" cy="39" r="9"/>
<circle cx="47" cy="38" r="9"/>
<circle cx="25" cy="51" r="9"/>
<circle cx="40" cy="51" r="9"/>
</g>
<g fill="#b0507d">
<circle cx="22" cy="23" r="2"/>
<circle cx="38" cy="23" r="2"/>
<circle cx="30" cy="36" r="2"/>
</g>
</svg>
Kegbramble</a>
<nav aria-label="Shop">
<a href="catalogue">Catalogue</a>
<a href="cart">Cart <span class="count">"##;

pub const BEHIND_COUNT: &str = r#"<span class="unseen"> articles</span></span></a>
</nav>
"#;

pub const BEFORE_NAME: &str = r#"<form class="who" method="post" action="logout">
<p>Welcome, <strong>"#;

pub const BEHIND_NAME: &str = r#"</strong></p>
<button class="plain">Log out</button>
</form>
</header>
"#;

pub const BEFORE_LOGIN: &str = r#"<form class="who" method="post" action="login">
"#;

pub const BEFORE_KEY: &str = r#"<input type="hidden" name="once" value=""#;

pub const LOGIN_FIELDS: &str = r#"<label for="name">Your name</label>
<input id="name" name="name" maxlength="64" required autocomplete="name">
<button class="plain">Log in</button>
</form>
</header>
"#;

pub const CATALOGUE: &str = r#"<main id="main" tabindex="-1">
<h1>Catalogue</h1>
<p>All that it takes to brew at home, and to have jam on the bread beside it.</p>
<ul class="offers">
"#;

pub const CART: &str = r#"<main id="main" tabindex="-1">
<h1>Your cart</h1>
"#;

pub const LINES: &str = "<ul class=\"lines\">\n";

pub const LINES_END: &str = "</ul>\n";

pub const BEFORE_PICTURE: &str = r#"<li>
<svg class="picture" viewBox="0 0 64 64" aria-hidden="true" focusable="false">
"#;

pub const BEFORE_FILL: &str = r#"<path fill=""#;

pub const ALONG: &str = r#"" d=""#;

pub const BEFORE_ACROSS: &str = r#"<circle cx=""#;

pub const BEFORE_DOWN: &str = r#"" cy=""#;

pub const BEFORE_RADIUS: &str = r#"" r=""#;

pub const BEFORE_CIRCLE_FILL: &str = r#"" fill=""#;

pub const BEHIND_SHAPE: &str = "\"/>\n";

pub const LINE_END: &str = "\n";

pub const BEFORE_ARTICLE_NAME: &str = "</svg>\n<h2 class=\"name\">";

pub const BEFORE_PRICE: &str = "</h2>\n<p class=\"price\">";

pub const BEFORE_COST: &str = " for ";

pub const BEFORE_NUMBER: &str = r#" &euro;</p>
<form method="post" action="cart">
<input type="hidden" name="article" value=""#;

pub const BEFORE_VISIT: &str = r#"">
<input type="hidden" name="visit" value=""#;

pub const BEFORE_PAGE: &str = r#"">
<input type="hidden" name="page" value=""#;

pub const BEFORE_LABEL: &str = r#"">
<label for="q"#;

pub const BEFORE_LABEL_NAME: &str = r#"">Quantity<span class="unseen"> of "#;

pub const BEFORE_FIELD: &str = r#"</span></label>
<input id="q"#;

pub const ADD_FIELD: &str =
    r#"" name="quantity" inputmode="numeric" pattern="[1-9][0-9]?" title="A whole number from 1 to 99" maxlength="2" required autocomplete="off" value=""#;

pub const CHANGE_FIELD: &str =
    r#"" name="quantity" inputmode="numeric" pattern="[0-9]{1,2}" title="A whole number from 0 to 99" maxlength="2" required autocomplete="off" value=""#;

pub const BEHIND_VALUE: &str = "\">\n";

pub const BEFORE_FAULT: &str = r#"" aria-invalid="true" aria-describedby="wrong" autofocus>
<p class="wrong" id="wrong">"#;

pub const BEHIND_FAULT: &str = "</p>\n";

pub const ADD_FAULT: &str = "Please write a whole number from 1 to 99.";

pub const CHANGE_FAULT: &str = "Please write a whole number from 0 to 99.";

pub const BEFORE_ADD: &str = r#"<button name="do" value="add">Add<span class="unseen"> "#;

pub const BEHIND_ADD: &str = r#" to the cart</span></button>
</form>
</li>
"#;

pub const BEFORE_CHANGE: &str =
    r#"<button name="do" value="change">Change<span class="unseen"> the quantity of "#;

pub const BEFORE_REMOVE: &str = r#"</span></button>
<button class="plain" name="do" value="remove" formnovalidate>Remove<span class="unseen"> "#;

pub const BEHIND_REMOVE: &str = r#"</span></button>
</form>
</li>
"#;

pub const BEHIND_ORDERED: &str = " &euro;</p>\n</li>\n";

pub const BEFORE_TOTAL: &str = "</ul>\n<p class=\"total\">Total <strong>";

pub const BEFORE_CHECKOUT: &str = r#" &euro;</strong></p>
<form class="order" method="post" action="checkout">
<input type="hidden" name="form" value=""#;

pub const BEHIND_CHECKOUT: &str = r#"">
<a href="catalogue">Go on shopping</a>
<button>Place the order</button>
</form>
"#;

pub const NOTHING: &str =
    r#"<p>There is nothing in it. A cart is kept for half an hour after your last visit.</p>
<p><a href="catalogue">Go to the catalogue</a></p>
"#;

pub const BEFORE_SAID: &str = "<p class=\"said\" role=\"status\">";

pub const NEW_CART: &str = "Your last visit had ended, so this is a new cart. ";

pub const TIMES: &str = " x ";

pub const BEHIND_SAID: &str = "</p>\n";

pub const ADDED: &str = "Added: ";

pub const CHANGED: &str = "In your cart now: ";

pub const AGAIN: &str = "Sent twice, and counted once: ";

pub const OUTDATED: &str =
    "That page is too old for the shop to know whether its form has counted, so nothing was changed: ";

pub const NOT_ORDERED: &str =
    "The order of that page had been placed before. What is in your cart now has not been ordered yet.";

pub const STOP: &str = ".";

pub const AT_MOST: &str = ". Of one article a cart has 99 at most.";

pub const ANEW: &str = ". Please choose it anew.";

pub const NO_ORDER: &str = r#"<main id="main" tabindex="-1">
<h1>No order</h1>
<p>Nothing was ordered yet.</p>
<p><a href="cart">Look at the cart</a></p>
"#;

pub const BEFORE_ORDER: &str = r#"<main id="main" tabindex="-1">
<h1>Thank you for your order</h1>
<p class="said" role="status">It has the number <strong>"#;

pub const BEHIND_ORDER: &str = r#"</strong>.</p>
<p>What comes next: we pack it, and it leaves the house tomorrow. Nothing more is for you to do. (This shop is an example, so nothing
comes, and nothing is to be paid.)</p>
<ul class="lines">
"#;

pub const BEHIND_ORDER_TOTAL: &str = r#" &euro;</strong></p>
<p><a href="catalogue">Go on shopping</a></p>
"#;

pub const BEFORE_HEADING: &str = "<main id=\"main\" tabindex=\"-1\">\n<h1>";

pub const BEFORE_MESSAGE: &str = "</h1>\n<p>";

pub const BEFORE_CODE: &str = "</p>\n<p class=\"code\">Status ";

pub const WAYS: &str = r#"</p>
<ul class="ways">
<li><a href="catalogue">Go to the catalogue</a></li>
<li><a href="cart">Look at the cart</a></li>
</ul>
"#;

pub const GOODBYE: &str = r#"<main id="main" tabindex="-1">
<h1>You have logged out</h1>
<p>Your visit has ended, and nothing is left in the cart.</p>
<p><a href="catalogue">Go to the catalogue</a></p>
"#;

pub const BEFORE_NODE: &str = r#"</main>
<footer>
<p>Kegbramble is an example of a shop: nothing is sold.</p>
<p class="node">Answered by node "#;

pub const BEFORE_MOVES: &str = ". Moves of your session between nodes so far: ";

pub const END: &str = ".</p>\n</footer>\n</body>\n</html>\n";
