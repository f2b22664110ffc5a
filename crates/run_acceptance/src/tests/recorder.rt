//! A gate that records the points at which it is asked, in order.
use arrayvec::ArrayVec;
use flash_table::{Gate, Point};

/// The points so far; points beyond the sixteenth are not recorded.
#[derive(Debug, Drop)]
pub(crate) struct Recorder {
    points: ArrayVec<Option<Point>, 16>,
}

impl Recorder {
    /// A gate that nobody has asked.
    pub(crate) fn new() -> Recorder {
        Recorder {
            points: ArrayVec::new(),
        }
    }

    /// Whether it was asked at these points and at no others.
    pub(crate) fn is(&self, points: &[Point]) -> bool {
        self.points.len() == points.len()
            && self
                .points
                .iter()
                .zip(points)
                .all(|(found, point)| *found == Some(*point))
    }
}

impl Gate for Recorder {
    fn at(&mut self, point: Point) {
        let _ = self.points.try_push(Some(point));
    }
}
