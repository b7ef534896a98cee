//! Laws of carts and their forms, and of what is kept of them. Each function does nothing; its contract is the law.

ghost use Rattle.std.specs.Prelude.{◌≡◌, ◌<◌, ◌≤◌, ◌^◌, true, false, ℕ, List, Some, length};
ghost use Rattle.std.specs.List.{All, fold, list_any};
ghost use Rattle.example_cart.specs.declared.order.Order.{Order};
ghost use Rattle.example_cart.specs.declared.post.Post.{Post};
ghost use Rattle.example_cart.specs.declared.visit.Visit.{Visit};
ghost use Rattle.example_cart.specs.Forms.{Basket, Remembered, after, age, counted, counting, counts, is_same, none_yet, posted};
ghost use Rattle.example_cart.specs.Kept.{IsSmall, cart_in, forms_in, kept_forms, kept_visit, visit_in};
ghost use Rattle.example_cart.specs.Order.{kept_order, order_in};

/// The cart after a list of forms is what those that count make of it, each once: one that has counted never counts again,
/// whatever forms come between, and however many.
pub fn each_counts_once()
    ensures those_that_count { (visit : ℕ) (basket : Basket) (posts : List Post)
        → after visit basket posts ≡ fold (counted visit) basket (counting visit basket posts) }
    ensures once { (visit : ℕ) (basket : Basket) (post : Post) (between : List Post) → counts visit basket post ≡ true
        → counts visit (after visit (posted visit basket post) between) post ≡ false }
{}

/// A form that was never sent counts. After 48 forms and fewer any does, of whichever page, and of whichever session's; and after
/// however many, one does whose page is newer than those of all of them.
pub fn an_unseen_form_counts()
    ensures unseen { (visit : ℕ) (cart : List ℕ) (posts : List Post) (post : Post) → length posts ≤ 48 → list_any (is_same post) posts ≡ false
        → counts visit (after visit (record { cart = cart; forms = none_yet }) posts) post ≡ true }
    ensures newer { (visit : ℕ) (cart : List ℕ) (posts : List Post) (post : Post) → All (λ earlier. age visit earlier < age visit post) posts
        → counts visit (after visit (record { cart = cart; forms = none_yet }) posts) post ≡ true }
{}

/// A cart or an order of ten quantities, forms, and a visit are read as they were kept.
pub fn read_as_kept()
    ensures cart { (cart : List ℕ) → length cart ≡ 10 → cart_in (Some cart) ≡ cart }
    ensures order { (order : Order) → length order.cart ≡ 10 → order_in (Some (kept_order order)) ≡ order }
    ensures forms { (forms : Remembered) → forms.floor < 2 ^ 64 → All IsSmall forms.posts → forms_in (Some (kept_forms forms)) ≡ forms }
    ensures visit { (visit : Visit) (node : ℕ) → visit.page < 2 ^ 32 → visit.moves < 2 ^ 32 → visit_in node (Some (kept_visit visit)) ≡ visit }
{}
