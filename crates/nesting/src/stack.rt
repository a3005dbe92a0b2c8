ghost use Rattle.std.specs.Prelude.{◌≡◌, ◌<◌, ◌≤◌, [], ◌∷◌, List, length, take, drop, reverse, if◌then◌else◌, ◌==◌, nat_lt, IfErr};
ghost use Rattle.std.specs.Result.{is_ok};
ghost use Rattle.nesting.specs.Nesting.{top, below};

use std::marker::Model;

/// How deep ifs, loops and turns may nest.
pub const DEPTH: usize = 8;

/// At most eight items, the last one pushed on top.
// An array and not an `ArrayVec`, which asks `Default` of its items.
#[derive(Drop)]
pub struct Stack<T: Copy> {
    items: [T; DEPTH],
    depth: usize,
}

impl<T: Copy> Model for Stack<T> {
    // The topmost first.
    ghost Value = { List T };

    ghost view = { λ s. reverse (take s.depth s.items) };

    ghost invariant = { λ s. (s.depth ≤ 8) × (length s.items ≡ 8) };
}

impl<T: Copy> Stack<T> {
    /// An empty stack; `filler` stands in the places not yet used.
    pub fn new(filler: T) -> Stack<T>
        ensures { result ≡ [] }
    {
        Stack {
            items: [filler; DEPTH],
            depth: 0,
        }
    }

    /// How many items there are.
    pub fn len(&self) -> usize
        ensures few { result ≤ 8 }
        ensures count { result ≡ length self.now }
    {
        let Stack { depth, .. } = self;
        *depth
    }

    /// Whether there is none.
    pub fn is_empty(&self) -> bool
        ensures empty { result ≡ (length self.now == 0) }
        ensures few { length self.now ≤ 8 }
    {
        self.depth == 0
    }

    /// The items, the topmost last.
    pub fn as_slice(&self) -> &[T]
        ensures items { reverse result.now ≡ self.now }
        ensures few { length self.now ≤ 8 }
    {
        &self.items[..self.depth]
    }

    /// The item so many places below the top.
    pub fn peek(&self, under: usize) -> Option<T>
        ensures item { result ≡ top (drop under self.now) }
        ensures few { length self.now ≤ 8 }
    {
        let at = self.depth.checked_sub(under)?.checked_sub(1)?;
        Some(self.items[at])
    }

    /// Puts an item on top, or hands it back where there is no room.
    pub fn push(&mut self, item: T) -> Result<(), T>
        ensures fits { is_ok result ≡ nat_lt (length self.old) 8 }
        ensures after { self.new ≡ (if is_ok result then item ∷ self.old else self.old) }
        ensures back { IfErr result (λ x. x ≡ item) }
        ensures few { length self.new ≤ 8 }
    {
        if self.depth >= DEPTH {
            return Err(item);
        }
        self.items[self.depth] = item;
        self.depth += 1;
        Ok(())
    }

    /// Takes the topmost item off; there is room for another then.
    pub fn pop(&mut self) -> Option<T>
        ensures value { result ≡ top self.old }
        ensures after { self.new ≡ below self.old }
        ensures room { length self.new < 8 }
    {
        self.depth = self.depth.checked_sub(1)?;
        Some(self.items[self.depth])
    }
}
