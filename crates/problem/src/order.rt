// Circuits that the search has found or that a caller holds, and which of two comes first.
ghost use Rattle.std.specs.Prelude.{◌≡◌, ◌≤◌, take};

// A gate list with its layout and measures: the first `len` bytes of `path` are its gates.
#[derive(Clone, Copy)]
pub struct Best {
    pub cost: u16,
    pub depth: u16,
    pub layout: u8,
    pub len: usize,
    pub path: [u8; 12],
    pub ghost short: { len ≤ 12 },
}

impl Best {
    // The gates, first to last.
    pub fn gates(&self) -> &[u8]
        ensures { result.now ≡ take self.now.len self.now.path }
    {
        &self.path[..self.len]
    }
}

// A circuit that a caller holds: as `Best`, but of any length, so that a caller can make any.
#[derive(Clone, Copy)]
pub struct Held {
    pub cost: u16,
    pub depth: u16,
    pub layout: u8,
    pub len: usize,
    pub path: [u8; 12],
}
