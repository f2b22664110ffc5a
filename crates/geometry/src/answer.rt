/// What a read found. With `Data` the caller's buffer has the sector's value.
#[derive(Clone, Copy, Debug, PartialEq, Eq)]
pub enum Got {
    Empty,
    Data,
}

/// What a sector was before a write or a trim.
#[derive(Clone, Copy, Debug, PartialEq, Eq)]
pub enum Was {
    Empty,
    Written,
}
