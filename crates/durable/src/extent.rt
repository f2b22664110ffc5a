ghost use Rattle.std.specs.Prelude.{◌≡◌, true, false};
ghost use Rattle.durable.specs.Updates.{LiesWithin, is_covered};

/// Sectors in a row: the first one, and how many.
#[derive(Clone, Copy, Debug, PartialEq, Eq)]
pub struct Extent {
    pub first: u32,
    pub count: u32,
}

impl Extent {
    /// Whether it has this sector.
    pub fn covers(self, sector: u32) -> bool
        ensures { result ≡ is_covered self sector }
    {
        sector >= self.first && sector - self.first < self.count
    }

    /// Whether it has sectors, and all of them are among the first so many.
    pub fn lies_within(self, sectors: usize) -> bool
        ensures yes { result ≡ true → LiesWithin sectors self }
        ensures no { result ≡ false → ¬ LiesWithin sectors self }
    {
        let first = self.first as usize;
        let count = self.count as usize;
        count > 0 && first < sectors && count <= sectors - first
    }
}
