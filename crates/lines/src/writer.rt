ghost use Rattle.std.specs.Prelude.{◌≡◌};
ghost use Rattle.lines.specs.Overwrites.{Wrote};

/// Writes items into a lent slice, one behind the other and as far as there is room, and counts them all.
#[derive(Drop)]
pub struct Writer<'a, T: Copy> {
    slice: &'a mut [T],
    count: usize,
}

impl<'a, T: Copy> Writer<'a, T> {
    /// A writer at the front of the slice.
    pub fn new(slice: &'a mut [T]) -> Writer<'a, T>
        ensures same { result.slice.ghost_name ≡ slice.entry.ghost_name }
        ensures slice { result.slice.now ≡ slice.old }
        ensures count { result.count ≡ 0 }
    {
        Writer { slice, count: 0 }
    }

    /// A writer whose first item goes to entry `at`; what stands before counts as written.
    // For whoever goes on where another writer stopped.
    pub fn starting_at(slice: &'a mut [T], at: usize) -> Writer<'a, T>
        ensures same { result.slice.ghost_name ≡ slice.entry.ghost_name }
        ensures slice { result.slice.now ≡ slice.old }
        ensures count { result.count ≡ at }
    {
        Writer { slice, count: at }
    }

    /// How many items there were, those without room included, or the largest number there is.
    // No `Option`: memory cannot hold as many items, and `write` would have to fail.
    pub fn count(&self) -> usize
        ensures { result ≡ self.now.count }
    {
        self.count
    }

    /// Writes what fits of the items.
    // Item by item: where their number is known when this is compiled, as it mostly is, each goes straight to its entry, and where none fits
    // nothing is made of them. `copy_from_slice` takes twice as long for a few bytes or lines.
    pub fn write(&mut self, items: &[T])
        ensures { Wrote self.old items.now self.new }
    {
        let Writer { slice, count } = self;
        let start = (*count).min(slice.len());
        let fits = items.len().min(slice.len() - start);
        for (i, item) in items.iter().enumerate() {
            if i < fits {
                slice[start + i] = *item;
            }
        }
        *count = count.saturating_add(items.len());
    }
}
