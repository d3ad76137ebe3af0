//! A history that only proofs read: an exporter notes in it what it was handed, and keeps none of it.

ghost use Rattle.std.specs.Prelude.{◌≡◌, List, [], ◌∷◌, ◌++◌};
ghost use Rattle.std.specs.Borrow.{ftrue};

use std::fmt;
use std::marker::{Model, PhantomData};

/// What was noted, the first first. It takes no memory, and its methods do nothing at run time. It says what its owner
/// noted, so that an invariant of the owner has to tie it to what was done.
#[derive(Drop)]
pub struct History<T> {
    of: PhantomData<T>,
    pub ghost items: { List T },
}

impl<T> Model for History<T> {
    ghost also_owns = { λ _. ftrue };
}

// It owns nothing.
unsafe impl<T: Send> Send for History<T> {}

impl<T> fmt::Debug for History<T> {
    fn fmt<W: fmt::Write>(&self, f: &mut fmt::Formatter<W>) -> fmt::Result {
        f.write_str("History")
    }
}

const _: () = prove!(size_of::<History<u64>>() == 0);

impl<T> History<T> {
    // Of any items: the proof of its caller says which, and reads them off the arguments.
    fn of<X, Y, Z>(_one: &X, _other: &Y, _third: &Z) -> History<T>
        ghost listed: { List T }
        ensures { result.items ≡ listed }
    {
        History { of: PhantomData }
    }

    /// Nothing was noted yet.
    pub fn new() -> History<T>
        ensures { result.items ≡ [] }
    {
        History::of(&(), &(), &())
    }
}

impl<T: Drop> History<T> {
    /// Notes an item after the others.
    pub fn push(&mut self, item: &T)
        ensures { self.new.items ≡ self.old.items ++ item.now ∷ [] }
    {
        *self = History::of(self, item, &());
    }

    /// Notes these items after the others.
    pub fn extend(&mut self, items: &Vec<T>)
        ensures { self.new.items ≡ self.old.items ++ items.now.items }
    {
        *self = History::of(self, items, &());
    }
}

impl<X: Drop, Y: Drop> History<(X, Y)> {
    /// Notes a pair after the others.
    pub fn push_pair(&mut self, one: &X, other: &Y)
        ensures { self.new.items ≡ self.old.items ++ (one.now, other.now) ∷ [] }
    {
        *self = History::of(self, one, other);
    }
}
