//! A list that only proofs read. It takes no memory.
ghost use Rattle.std.specs.Prelude.{◌≡◌, ◌∷◌, ◌++◌, List, []};
ghost use Rattle.std.specs.Borrow.{ftrue};

use std::marker::{Model, PhantomData};

pub(crate) struct Listed<T> {
    marker: PhantomData<T>,
    pub ghost items: { List T },
}

impl<T> Model for Listed<T> {
    ghost also_owns = { λ _. ftrue };
}

impl<T> Drop for Listed<T> {
    fn drop(self) {
        let Self { marker: _ } = self;
    }
}

impl<T> Listed<T> {
    #[inline(always)]
    pub(crate) fn new() -> Listed<T>
        ensures { result.items ≡ [] }
    {
        Listed {
            marker: PhantomData,
        }
    }

    #[inline(always)]
    pub(crate) fn and(&self, _item: &T) -> Listed<T>
        ensures { result.items ≡ self.now.items ++ _item.now ∷ [] }
    {
        Listed {
            marker: PhantomData,
        }
    }
}
