//! A gate that counts how often it was asked at each point.
use flash_table::{Gate, Point};

/// A gate's number, and how often it was asked at each point.
#[derive(Clone, Copy, Debug, Drop, PartialEq, Eq)]
pub(crate) struct Visits {
    pub number: usize,
    pub looks: u64,
    pub pins: u64,
    pub places: u64,
    pub claims: u64,
    pub moves: u64,
    pub erases: u64,
    pub answered: u64,
}

/// A gate that nobody has asked.
pub(crate) const NO_VISITS: Visits = Visits {
    number: 0,
    looks: 0,
    pins: 0,
    places: 0,
    claims: 0,
    moves: 0,
    erases: 0,
    answered: 0,
};

impl Gate for Visits {
    fn at(&mut self, point: Point) {
        let count = match point {
            Point::AfterLook => &mut self.looks,
            Point::AfterPin => &mut self.pins,
            Point::BeforePlace => &mut self.places,
            Point::BeforeClaim => &mut self.claims,
            Point::BeforeMove => &mut self.moves,
            Point::BeforeErase => &mut self.erases,
            Point::Answered => &mut self.answered,
        };
        *count = count.wrapping_add(1);
    }
}
