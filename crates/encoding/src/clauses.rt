// The clauses as they stand in their arrays.
ghost use Rattle.std.specs.Prelude.{◌≡◌, ◌+◌, ◌≤◌, ◌<◌, slice_index, slice_range};
ghost use Rattle.encoding.specs.Lengths.{literal_array};

use crate::{ClauseStore, STARTS};

impl ClauseStore {
    // The words of clause c.
    pub fn clause(&self, c: usize) -> &[u16]
        requires { (c + 1 < STARTS) × (slice_index self.now.starts c ≤ slice_index self.now.starts (c + 1))
            × (slice_index self.now.starts (c + 1) ≤ literal_array) }
        ensures { result.now ≡ slice_range self.now.literals (slice_index self.now.starts c) (slice_index self.now.starts (c + 1)) }
    {
        let from = usize::from(self.starts[c]);
        let end = usize::from(self.starts[c + 1]);
        &self.literals[from..end]
    }
}
