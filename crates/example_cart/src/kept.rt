//! A cart, its forms and a visit as bytes, for attributes of a session. All numbers are big-endian.

ghost use Rattle.std.specs.Prelude.{◌≡◌, ◌≤◌, ◌*◌, ◌++◌, IfOk, OnOk, drop, length, option_copied};
ghost use Rattle.std.specs.Int.{w32, w64, from_be_bytes};
ghost use Rattle.std.specs.List.{flat_map};
ghost use Rattle.example_cart.specs.Kept as spec;
ghost use Rattle.example_cart.specs.Kept.{cart_in, forms_in, kept_forms, kept_visit, post_at, post_bytes, posts_in, visit_in};

use crate::cart::{Cart, ROWS};
use crate::forms::Forms;
use crate::post::{Change, Mark, Post};
use crate::visit::Visit;
use std::alloc::{AllocError, Global};

/// The bytes of a form.
const POST_BYTES: usize = 15;

/// The cart of ten bytes, a quantity each; where they are none of a cart, or there are none, one with nothing in it.
pub fn read_cart(alloc: Global, bytes: Option<&[u8]>) -> Result<Cart, AllocError>
    ensures { IfOk result (λ cart. cart ≡ cart_in (option_copied bytes.entry)) }
{
    match bytes {
        Some(bytes) if bytes.len() == ROWS => {
            Ok(Cart::of_quantities(Vec::from_slice(alloc, bytes)?))
        }
        _ => Cart::new(alloc),
    }
}

/// What stands from a place on.
fn tail(bytes: &[u8], at: usize) -> &[u8]
    requires { at ≤ length bytes.now }
    ensures { result.now ≡ drop at bytes.now }
{
    bytes.split_at(at).1
}

/// The number of the first eight bytes.
fn read_u64(bytes: &[u8]) -> u64
    requires { 8 ≤ length bytes.now }
    ensures { result ≡ from_be_bytes w64 bytes.now }
{
    u64::from_be_bytes([
        bytes[0], bytes[1], bytes[2], bytes[3], bytes[4], bytes[5], bytes[6], bytes[7],
    ])
}

/// The number of the first four bytes.
fn read_u32(bytes: &[u8]) -> u32
    requires { 4 ≤ length bytes.now }
    ensures { result ≡ from_be_bytes w32 bytes.now }
{
    u32::from_be_bytes([bytes[0], bytes[1], bytes[2], bytes[3]])
}

/// The change of a kind and a number.
fn change_of(kind: u8, amount: u8) -> Change
    ensures { result ≡ spec.change_of kind amount }
{
    match kind {
        0 => Change::Add(amount),
        1 => Change::Put(amount),
        _ => Change::Remove,
    }
}

/// Adds the bytes of a form: the two numbers of its page, its article, and its change.
fn write_post(bytes: &mut Vec<u8>, post: &Post) -> Result<(), AllocError>
    ensures { OnOk result (bytes.new.items ≡ bytes.old.items ++ post_bytes post.now) }
{
    bytes.extend_from_slice(&post.mark.visit.to_be_bytes())?;
    bytes.extend_from_slice(&post.mark.page.to_be_bytes())?;
    bytes.extend_from_slice(&[post.article, post.change.kind(), post.change.amount()])?;
    Ok(())
}

/// The form that some bytes begin with.
fn read_post(bytes: &[u8]) -> Post
    requires { 15 ≤ length bytes.now }
    ensures { result ≡ post_at bytes.now }
{
    Post {
        mark: Mark {
            visit: read_u64(bytes),
            page: read_u32(tail(bytes, 8)),
        },
        article: bytes[12],
        change: change_of(bytes[13], bytes[14]),
    }
}

/// Adds the bytes of forms.
fn write_posts(bytes: &mut Vec<u8>, posts: &[Post]) -> Result<(), AllocError>
    ensures { OnOk result (bytes.new.items ≡ bytes.old.items ++ flat_map post_bytes posts.now) }
{
    for post in posts {
        write_post(bytes, post)?;
    }
    Ok(())
}

/// The bytes of forms: eight of the age below which one is too old, and fifteen of each.
#[tactic(auto, unfolding(crate::specs::Kept::kept_forms))]
pub fn kept_forms(alloc: Global, forms: &Forms) -> Result<Vec<u8>, AllocError>
    ensures { IfOk result (λ bytes. bytes.items ≡ kept_forms forms.now) }
{
    let mut bytes = Vec::new(alloc);
    bytes.extend_from_slice(&forms.floor().to_be_bytes())?;
    write_posts(&mut bytes, forms.posts())?;
    Ok(bytes)
}

/// So many forms, one after the other.
fn read_posts(alloc: Global, bytes: &[u8], count: usize) -> Result<Vec<Post>, AllocError>
    requires { count * 15 ≤ length bytes.now }
    ensures { IfOk result (λ posts. posts.items ≡ posts_in count bytes.now) }
{
    let mut posts = Vec::new(alloc);
    for at in 0..count {
        posts.push(read_post(tail(bytes, at * POST_BYTES)))?;
    }
    Ok(posts)
}

/// The forms of some bytes; where they are none of forms, or there are none, no form.
pub fn read_forms(alloc: Global, bytes: Option<&[u8]>) -> Result<Forms, AllocError>
    ensures { IfOk result (λ forms. forms ≡ forms_in (option_copied bytes.entry)) }
{
    match bytes {
        Some(bytes) if bytes.len() >= 8 => {
            let count = (bytes.len() - 8) / POST_BYTES;
            let posts = read_posts(alloc, tail(bytes, 8), count)?;
            Ok(Forms::of_posts(read_u64(bytes), posts))
        }
        _ => Ok(Forms::new(alloc)),
    }
}

/// The nine bytes of a visit.
pub fn kept_visit(visit: Visit) -> [u8; 9]
    ensures { result ≡ kept_visit visit }
{
    let page = visit.page.to_be_bytes();
    let moves = visit.moves.to_be_bytes();
    [
        page[0], page[1], page[2], page[3], visit.node, moves[0], moves[1], moves[2], moves[3],
    ]
}

/// The visit of some bytes; where they are none of a visit, or there are none, one that begins at a node.
pub fn read_visit(node: u8, bytes: Option<&[u8]>) -> Visit
    ensures { result ≡ visit_in node (option_copied bytes.entry) }
{
    match bytes {
        Some(bytes) if bytes.len() == 9 => Visit {
            page: read_u32(bytes),
            node: bytes[4],
            moves: read_u32(tail(bytes, 5)),
        },
        _ => Visit::new(node),
    }
}
