//! Which forms count.

ghost use Rattle.std.specs.Prelude.{◌≡◌, IfOk, OnOk};
ghost use Rattle.example_cart.specs.Forms as spec;
ghost use Rattle.example_cart.specs.Forms.{Basket, counts, none_yet, posted, remembered, standing};

use crate::cart::Cart;
use crate::post::Post;
use std::alloc::{AllocError, Global};
use std::marker::Model;

/// So many forms that have counted are remembered.
pub const FORM_LIMIT: usize = 48;

/// How a form stands.
#[derive(Clone, Copy, Debug)]
pub enum Standing {
    /// It counts.
    Counts,
    /// It has counted before, as one that is sent twice.
    Repeated,
    /// It may have counted: it is from a page that is no newer than a form that the session has let go of.
    TooOld,
}

/// The last forms of a session that have counted.
#[derive(Drop)]
pub struct Forms {
    floor: u64,
    posts: Vec<Post>,
}

impl Model for Forms {
    ghost use Rattle.example_cart.specs.Forms.{Remembered};

    ghost Value = { Remembered };

    ghost view = { λ f. record { floor = f.floor; posts = f.posts.items } };
}

/// How new the page of a form is, in a session of this number: the pages of the session are as new as their numbers tell, and a
/// page of another session, as of one that has expired, is older than all of them.
fn age(visit: u64, post: Post) -> u64
    ensures { result ≡ spec.age visit post }
{
    if post.mark.visit == visit {
        u64::from(post.mark.page) + 1
    } else {
        0
    }
}

impl Forms {
    /// These forms, the oldest first; below the age of the floor one is too old.
    pub fn of_posts(floor: u64, posts: Vec<Post>) -> Forms
        ensures { result ≡ record { floor = floor; posts = posts.items } }
    {
        Forms { floor, posts }
    }

    /// No form yet.
    pub fn new(alloc: Global) -> Forms
        ensures { result ≡ none_yet }
    {
        Forms {
            floor: 0,
            posts: Vec::new(alloc),
        }
    }

    /// Below this age a form is too old.
    pub fn floor(&self) -> u64
        ensures { result ≡ self.now.floor }
    {
        self.floor
    }

    /// The forms, the oldest first.
    pub fn posts(&self) -> &[Post]
        ensures { result.now ≡ self.now.posts }
    {
        self.posts.as_slice()
    }

    /// The form is among them.
    fn has_counted(&self, post: Post) -> bool
        ensures { result ≡ spec.has_counted self.now post }
    {
        self.posts.iter().any(|one| post.is_same(one))
    }

    /// How a form stands in the session of this number.
    pub fn standing(&self, visit: u64, post: Post) -> Standing
        ensures { result ≡ standing visit self.now post }
    {
        if age(visit, post) < self.floor {
            return Standing::TooOld;
        }
        if self.has_counted(post) {
            return Standing::Repeated;
        }
        Standing::Counts
    }

    /// Lets the oldest go where there are as many as are remembered.
    fn make_room(&mut self, visit: u64)
        ensures { self.new ≡ spec.with_room visit self.old }
    {
        if self.posts.len() >= FORM_LIMIT {
            let oldest = self.posts.remove(0);
            self.floor = self.floor.max(age(visit, oldest) + 1);
        }
    }

    /// Remembers a form. Where it is one too many, the oldest is let go, and what is no newer than that is too old from then on.
    pub fn remember(&mut self, visit: u64, post: Post) -> Result<(), AllocError>
        ensures { OnOk result (self.new ≡ remembered visit self.old post) }
    {
        self.make_room(visit);
        self.posts.push(post)?;
        Ok(())
    }
}

/// Makes the change of a form that counts, and remembers it; any other changes nothing. Gives how it stood.
pub fn take_post(
    cart: &mut Cart,
    forms: &mut Forms,
    visit: u64,
    post: Post,
) -> Result<Standing, AllocError>
    ensures standing { IfOk result (λ found. found ≡ standing visit forms.old post) }
    ensures posted { OnOk result (record { cart = cart.new; forms = forms.new } ≡ posted visit (record { cart = cart.old; forms = forms.old }) post) }
{
    let standing = forms.standing(visit, post);
    if let Standing::Counts = standing {
        cart.change(post);
        forms.remember(visit, post)?;
    }
    Ok(standing)
}
