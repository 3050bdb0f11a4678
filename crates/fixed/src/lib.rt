// A list in fixed memory that can be copied: up to N items at the front of an array.
// The breach formulas (`formulas`) and the sheet of rules (`rules`) stand on it.
#![tactic(auto)]

ghost use Rattle.std.specs.Prelude.{◌≡◌, ◌<◌, ◌≤◌, [], ◌∷◌, ◌++◌, length, ⊤, Decides, MatchOption};

use std::alloc::AllocError;

// Up to N items in order, with a blank in each free place.
// Kept: `arrayvec::ArrayVec` is not `Copy`, and the breach formulas and sheets made of these lists are copied as values.
pub struct FixedList<T, const N: usize> {
    items: [T; N],
    len: usize,
    ghost size: { length items ≡ N },
    ghost fits: { len ≤ N },
}

// Kept: a derive of `Clone` is refused over ghost fields (`derive-over-ghost-field`).
impl<T: Copy, const N: usize> Clone for FixedList<T, N> {
    ghost is_clone = { λ x y. y ≡ x };

    ghost is_infallible = { λ _. ⊤ };

    fn clone(&self) -> Result<FixedList<T, N>, AllocError> {
        Ok(*self)
    }
}

impl<T: Copy, const N: usize> Copy for FixedList<T, N> {}

impl<T: Copy, const N: usize> FixedList<T, N> {
    ghost use Rattle.fixed.specs.Held.{held};

    // No items.
    pub fn new(blank: T) -> FixedList<T, N>
        ensures { held result ≡ [] }
    {
        FixedList {
            items: [blank; N],
            len: 0,
        }
    }

    // The items of a slice; none where it has more than N.
    pub fn from_slice(blank: T, slice: &[T]) -> Option<FixedList<T, N>>
        ensures { MatchOption result (N < length slice.now) (λ l. held l ≡ slice.now) }
    {
        let len = slice.len();
        if len > N {
            return None;
        }
        let mut items = [blank; N];
        items[..len].copy_from_slice(slice);
        Some(FixedList { items, len })
    }

    // The items.
    pub fn as_slice(&self) -> &[T]
        ensures items { result.now ≡ held self.now }
        ensures fits { length result.now ≤ N }
    {
        &self.items[..self.len]
    }

    // How many there are.
    pub fn len(&self) -> usize
        ensures is { result ≡ length (held self.now) }
        ensures fits { result ≤ N }
    {
        self.len
    }

    pub fn is_empty(&self) -> bool
        ensures { Decides result (held self.now ≡ []) }
    {
        self.len == 0
    }

    // Whether there are N.
    pub fn is_full(&self) -> bool
        ensures decides { Decides result (length (held self.now) ≡ N) }
        ensures room { length (held self.now) ≤ N }
    {
        self.len == N
    }

    // Puts an item at the end and answers its place. None, and no change, where the list is full.
    pub fn push(&mut self, item: T) -> Option<usize>
        ensures { MatchOption result ((length (held self.old) ≡ N) × (self.new ≡ self.old)) (λ i. (i ≡ length (held self.old)) × (i < N) × (held self.new ≡ held self.old ++ item ∷ [])) }
    {
        let place = self.len;
        if place == N {
            return None;
        }
        self.items[place] = item;
        self.len = place + 1;
        Some(place)
    }
}
