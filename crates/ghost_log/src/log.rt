//! The list itself, and how one more item is put behind the others (ghost state).

ghost use Rattle.std.specs.Prelude.{◌≡◌, List, [], ◌∷◌, ◌++◌};
ghost use Rattle.std.specs.Borrow.{ftrue};

use std::marker::{Model, PhantomData};

/// Items, as contracts see them.
#[derive(Drop)]
pub struct Log<A> {
    of: PhantomData<A>,
    pub ghost items: { List A },
}

impl<A> Model for Log<A> {
    ghost also_owns = { λ _. ftrue };
}

// It owns nothing.
unsafe impl<A: Send> Send for Log<A> {}

impl<A> Log<A> {
    /// No items.
    pub fn new() -> Log<A>
        ensures { result.items ≡ [] }
    {
        Log { of: PhantomData }
    }

    /// The log's items and one more item, as the last one.
    pub fn and(&self, item: &A) -> Log<A>
        ensures { result.items ≡ self.now.items ++ item.now ∷ [] }
    {
        Log { of: PhantomData }
    }
}
