// What a scan of a list finds: a window that yields, and the gates that take its place.
ghost use Rattle.std.specs.Prelude.{◌≡◌, ◌≤◌, take, drop};

// The gates that the search found for a window: the first `len` from byte 3 on of its record.
#[derive(Clone, Copy)]
pub struct Offer {
    pub len: usize,
    pub bytes: [u8; 15],
    pub ghost short: { len ≤ 12 },
}

impl Offer {
    // The gates, first to last.
    pub fn gates(&self) -> &[u8]
        ensures { result.now ≡ take self.now.len (drop 3 self.now.bytes) }
    {
        let end = 3 + self.len;
        &self.bytes[3..end]
    }
}

// The first window that yields: it begins at gate `at`, and the gates of `offer` replace it.
#[derive(Clone, Copy)]
pub struct Hit {
    pub at: usize,
    pub offer: Offer,
}
