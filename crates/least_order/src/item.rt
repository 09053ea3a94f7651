//! Items: what an order places, and which of them share a variable.

ghost use Rattle.std.specs.Prelude.{◌≡◌};
ghost use Rattle.least_order.specs.Items.{shares};

/// The most items that are put in an order, which is the most atoms of a query.
pub const MOST_ITEMS: usize = 8;

/// What an order places: a fragment that is finished, or an atom.
#[derive(Clone, Copy, Debug, PartialEq, Eq)]
pub struct Item {
    /// How many rows it has, or is thought to have.
    pub count: u64,
    /// Its variables: bit `v` is set where variable `v` is one of them.
    pub vars: u64,
}

impl Item {
    /// Whether there is a variable of both items.
    pub fn shares_variable(&self, other: &Item) -> bool
        ensures { result ≡ shares self.now other.now }
    {
        self.vars & other.vars != 0
    }
}
