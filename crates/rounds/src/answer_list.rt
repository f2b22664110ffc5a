ghost use Rattle.std.specs.Prelude.{◌≡◌, length};
ghost use Rattle.rounds.specs.Pages.{bytes_in};

use crate::answer::Kind;

/// The answers of lines in order: the kind of each, and the pages that reads have found, one after another.
#[derive(Drop)]
pub struct Answers {
    pub(crate) page_bytes: usize,
    pub(crate) kinds: Vec<Kind>,
    pub(crate) pages: Vec<u8>,
    pub ghost whole: { length pages.items ≡ bytes_in page_bytes kinds.items },
}

/// A place among answers: how many are before it, and where its page begins if it has one.
#[derive(Clone, Copy)]
pub struct Cursor {
    pub(crate) line: usize,
    pub(crate) page: usize,
}
