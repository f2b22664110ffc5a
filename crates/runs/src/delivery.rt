ghost use Rattle.std.specs.Prelude.{◌≡◌, [], replicate, vec_len};
ghost use Rattle.rounds.specs.Answers.{first_place};
ghost use Rattle.answers.specs.Delivery.{waiting_of};

use answers::Lines;
use rounds::Cursor;

/// The room for a delivery: for each worker the place of its next answer, and the lines that wait to be written.
#[derive(Drop)]
pub struct Delivery {
    pub(crate) next: Vec<Cursor>,
    pub(crate) lines: Lines,
    pub ghost first: { next.items ≡ replicate (vec_len next) first_place },
    pub ghost none: { waiting_of lines ≡ [] },
}
