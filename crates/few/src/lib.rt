// A list of few values in fixed memory, which is copied as a number is.
#![tactic(auto)]

ghost use Rattle.std.specs.Prelude.{◌≡◌, ◌+◌, ◌-◌, ◌<◌, ◌≤◌, ◌==◌, [], ◌∷◌, ◌++◌, length, take, drop, slice_get, Decides};

use std::alloc::AllocError;
use std::marker::Model;

// What stands in room that no value uses. `Default` says which values it may give, and an invariant has to name the one.
pub trait Filler: Copy {
    ghost filler: { Self };

    fn filler() -> Self
        ensures { result ≡ filler };
}

impl Filler for u16 {
    ghost filler = { 0 };

    fn filler() -> Self {
        0
    }
}

// At most `N` values, and at most 255. A rule of the project: the memory is fixed, so the length stands beside it. Unused room
// holds the filler, so that equal lists are equal memory.
#[derive(PartialEq, Eq)]
pub struct Few<T: Filler, const N: usize> {
    len: u8,
    items: [T; N],
}

impl<T: Filler, const N: usize> Model for Few<T, N> {
    ghost use Rattle.std.specs.Prelude.{◌≡◌, ℕ, ◌-◌, ◌<◌, ◌≤◌, List, ◌++◌, length, take, drop, replicate};
    ghost use Rattle.std.proofs.Common.{ap₂};
    ghost use Rattle.few.specs.Room.{used_length, whole_again};

    ghost Value = { List T };

    ghost view = { λ f. take f.len f.items };

    ghost invariant = { λ f. (f.len ≤ N) × (length f.items ≡ N) × (drop f.len f.items ≡ replicate (N - f.len) T.filler) };

    ghost inverse = { λ xs. record { len = length xs; items = xs ++ replicate (N - length xs) T.filler } };

    ghost inverse_ok = { λ f h. ap₂ (λ n xs. record { len = n; items = xs }) (used_length f.len N f.items h.0 h.1) (whole_again f.len N f.items T.filler h.0 h.1 h.2) };
}

// By hand: where it is derived, it stays open that what the values' own `clone` gives is equal to them.
impl<T: Filler, const N: usize> Clone for Few<T, N> {
    ghost use Rattle.std.specs.Prelude.{⊤};

    ghost is_clone = { λ old new. new ≡ old };

    ghost is_infallible = { λ _. ⊤ };

    fn clone(&self) -> Result<Self, AllocError> {
        Ok(*self)
    }
}

impl<T: Filler, const N: usize> Copy for Few<T, N> {}

impl<T: Filler, const N: usize> Filler for Few<T, N> {
    ghost filler = { [] };

    fn filler() -> Self {
        Few::new()
    }
}

impl<T: Filler, const N: usize> Few<T, N> {
    pub fn new() -> Self
        ensures { result ≡ [] }
    {
        Few {
            len: 0,
            items: [T::filler(); N],
        }
    }

    pub fn len(&self) -> usize
        ensures value { result ≡ length self.now }
        ensures limit { result ≤ N }
    {
        usize::from(self.len)
    }

    pub fn is_empty(&self) -> bool
        ensures { result ≡ (length self.now == 0) }
    {
        self.len == 0
    }

    pub fn is_full(&self) -> bool
        ensures value { result ≡ (length self.now == N) }
        ensures within { length self.now ≤ N }
    {
        usize::from(self.len) == N
    }

    pub fn as_slice(&self) -> &[T]
        ensures { result.now ≡ self.now }
    {
        &self.items[..usize::from(self.len)]
    }

    pub fn get(&self, at: usize) -> Option<T>
        ensures { result ≡ slice_get self.now at }
    {
        self.as_slice().get(at).copied()
    }

    pub fn push(&mut self, item: T)
        requires room { length self.old < N }
        requires counted { length self.old < 255 }
        ensures { self.new ≡ self.old ++ item ∷ [] }
    {
        self.items[usize::from(self.len)] = item;
        self.len += 1;
    }

    // Takes out the first value.
    pub fn remove_first(&mut self)
        requires { 0 < length self.old }
        ensures { self.new ≡ drop 1 self.old }
    {
        self.items[0] = T::filler();
        self.items.rotate_left(1);
        self.len -= 1;
    }

    // Puts another value in the place of the last.
    pub fn replace_last(&mut self, item: T)
        requires { 0 < length self.old }
        ensures { self.new ≡ take (length self.old - 1) self.old ++ item ∷ [] }
    {
        self.items[usize::from(self.len - 1)] = item;
    }
}

// Two lists compare as equal exactly when they are equal, where their values do.
pub fn equality_is_exact<T: Filler + PartialEq, const N: usize>()
    requires { (a : T) (b : T) → Decides (T.eq a b) (a ≡ b) }
    ensures { (xs : _) (ys : _) → Decides (⟦<Few<T, N> as PartialEq>⟧.eq xs ys) (xs ≡ ys) }
{}
