//! What the form of an article asks of a cart.

ghost use Rattle.std.specs.Prelude.{◌≡◌, min};
ghost use Rattle.example_cart.specs.Cart.{changed_quantity};
ghost use Rattle.example_cart.specs.Forms as forms;

/// Of one article a cart has this many at most.
pub const QUANTITY_LIMIT: u8 = 99;

/// A change of an article's quantity.
#[derive(Clone, Copy, Debug)]
pub enum Change {
    /// So many more.
    Add(u8),
    /// So many in all.
    Put(u8),
    /// None.
    Remove,
}

impl Change {
    /// How many there are after the change; never more than the limit.
    pub fn of(self, quantity: u8) -> u8
        ensures { result ≡ changed_quantity quantity self }
    {
        match self {
            Change::Add(more) => quantity.saturating_add(more).min(QUANTITY_LIMIT),
            Change::Put(all) => all.min(QUANTITY_LIMIT),
            Change::Remove => 0,
        }
    }

    /// Which kind of a change it is, as a number.
    pub fn kind(self) -> u8
        ensures { result ≡ forms.kind self }
    {
        match self {
            Change::Add(_) => 0,
            Change::Put(_) => 1,
            Change::Remove => 2,
        }
    }

    /// How many it speaks of; 0 where it removes all.
    pub fn amount(self) -> u8
        ensures { result ≡ forms.amount self }
    {
        match self {
            Change::Add(more) => more,
            Change::Put(all) => all,
            Change::Remove => 0,
        }
    }
}

/// The number of a page that was shown, which no other page has: that of the session that it was shown in, and how many pages the
/// session was shown before.
#[derive(Clone, Copy, Debug)]
pub struct Mark {
    pub visit: u64,
    pub page: u32,
}

/// A form that was sent: of which page, for which article, and what it asks for.
#[derive(Clone, Copy, Debug)]
pub struct Post {
    pub mark: Mark,
    pub article: u8,
    pub change: Change,
}

impl Post {
    /// The two are forms of one page that ask for one change of one article.
    pub fn is_same(&self, other: &Post) -> bool
        ensures { result ≡ forms.is_same self.now other.now }
    {
        self.mark.visit == other.mark.visit
            && self.mark.page == other.mark.page
            && self.article == other.article
            && self.change.kind() == other.change.kind()
            && self.change.amount() == other.change.amount()
    }
}
