// A list in fixed room.
ghost use Rattle.std.specs.Prelude.{◌≡◌, [], ◌∷◌, ◌++◌, ◌<◌, length, ⊤};

use std::alloc::AllocError;
use std::marker::Model;

// Items, N at most.
pub struct Listed<T: Copy, const N: usize> {
    at: [T; N],
    count: usize,
}

// Clauses see the items, and the room behind them: were it forgotten, no list could be Copy.
impl<T: Copy, const N: usize> Model for Listed<T, N> {
    ghost use Rattle.std.specs.Prelude.{ℕ, ◌≡◌, take, drop, length, ◌++◌, ◌≤◌};
    ghost use Rattle.std.proofs.Common.{sym, subst, take-append-drop, length-take-le};
    ghost use Rattle.shares.specs.Listing.{Lists};

    ghost Value = { Lists T };

    ghost view = { λ s. record { items = take s.count s.at; rest = drop s.count s.at } };

    ghost invariant = { λ s. (s.count ≤ N) × (length s.at ≡ N) };

    ghost inverse = { λ v. record { at = v.items ++ v.rest; count = length v.items } };

    ghost inverse_ok = { λ s h i. record { at = take-append-drop s.count s.at i; count = length-take-le s.count s.at (subst (λ n. s.count ≤ n) (sym h.1) h.0) i } };
}

impl<T: Copy, const N: usize> Copy for Listed<T, N> {}

// A clone is the list itself.
impl<T: Copy, const N: usize> Clone for Listed<T, N> {
    ghost is_clone = { λ x y. y ≡ x };

    ghost is_infallible = { λ _. ⊤ };

    fn clone(&self) -> Result<Self, AllocError> {
        Ok(*self)
    }
}

impl<T: Copy, const N: usize> Listed<T, N> {
    // None yet; the room is filled with some item.
    pub fn none(blank: T) -> Self
        ensures { result.items ≡ [] }
    {
        Listed {
            at: [blank; N],
            count: 0,
        }
    }

    pub fn listed(&self) -> &[T]
        ensures { result.now ≡ self.now.items }
    {
        &self.at[..self.count]
    }

    pub fn clear(&mut self)
        ensures { self.new.items ≡ [] }
    {
        self.count = 0;
    }

    pub fn push(&mut self, item: T)
        requires { length self.old.items < N }
        ensures { self.new.items ≡ self.old.items ++ (item ∷ []) }
    {
        self.at[self.count] = item;
        self.count += 1;
    }
}
