/// The points at which a gated call runs its gate.
#[derive(Clone, Copy, Debug, PartialEq, Eq)]
pub enum Point {
    /// After each look of a read.
    AfterLook,
    /// After an accepted pin, before the first word of the page is read.
    AfterPin,
    /// Before the map word is swapped, after the written page was counted.
    BeforePlace,
    /// Before the claim, after the victim was chosen.
    BeforeClaim,
    /// Before the exchange of a map word, after the copy was counted.
    BeforeMove,
    /// Before the exchange that condemns a block.
    BeforeErase,
    /// After an answer was stored, in a run of lines.
    Answered,
}

/// What a gated call runs at its points. It promises nothing, so the contract of a gated call holds whatever happens there.
pub trait Gate {
    fn at(&mut self, point: Point);
}

/// A gate that does nothing.
#[derive(Clone, Copy)]
pub struct NoGate;

impl Gate for NoGate {
    fn at(&mut self, _point: Point) {}
}
