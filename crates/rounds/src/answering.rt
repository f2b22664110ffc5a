ghost use Rattle.std.specs.Prelude.{◌≡◌, ℕ, Some, [], ◌∷◌, ◌++◌, ◌+◌, ◌*◌, ◌<◌, IfOk, length, slice_get, take};
ghost use Rattle.rounds.specs.declared.answer.Kind.TheVariants as kinds;
ghost use Rattle.rounds.specs.Pages.{bytes_of};
ghost use Rattle.rounds.specs.Answers.{first_place, page_size_of, answer_index, said_in, HasSpace, IsCursorOf};

use crate::answer::Kind;
use crate::answer_list::{Answers, Cursor};
use std::alloc::{AllocError, Global};

impl Cursor {
    /// The cursor at the first answer.
    pub fn new() -> Cursor
        ensures { result ≡ first_place }
    {
        Cursor { line: 0, page: 0 }
    }
}

impl Answers {
    /// An empty list with room for the answers of `lines` lines, `reads` of which are reads of a page.
    pub fn with_room(
        alloc: Global,
        page_bytes: usize,
        lines: usize,
        reads: usize,
    ) -> Result<Answers, AllocError>
        ensures none { IfOk result (λ answers. said_in answers ≡ []) }
        ensures page { IfOk result (λ answers. page_size_of answers ≡ page_bytes) }
        ensures space { IfOk result (λ answers. HasSpace answers lines (page_bytes * reads)) }
    {
        let bytes = page_bytes.checked_mul(reads).ok_or(AllocError)?;
        Ok(Answers {
            page_bytes,
            kinds: Vec::with_capacity(alloc, lines)?,
            pages: Vec::with_capacity(alloc, bytes)?,
        })
    }

    /// How many answers there are.
    pub fn len(&self) -> usize
        ensures { result ≡ length (said_in self.now) }
    {
        self.kinds.len()
    }

    /// Adds an answer, with its page if it has one.
    pub fn push(&mut self, kind: Kind, page: &[u8])
        requires space { HasSpace self.old 1 (bytes_of (page_size_of self.old) kind) }
        requires page { kind ≡ kinds.Page → length page.now ≡ page_size_of self.old }
        ensures more { said_in self.new
            ≡ said_in self.old
            ++ record { kind = kind; page = take (bytes_of (page_size_of self.old) kind) page.now }
            ∷ [] }
        ensures page { page_size_of self.new ≡ page_size_of self.old }
        ensures space { (n m : ℕ)
            → HasSpace self.old (1 + n) (bytes_of (page_size_of self.old) kind + m)
            → HasSpace self.new n m }
    {
        self.kinds.push_reserved(kind);
        if let Kind::Page = kind {
            let Ok(()) = self.pages.extend_from_slice(page) else {
                unreachable!()
            };
        }
    }

    /// The answer at a cursor, which moves on to the next one. The page is empty if the answer has none.
    pub fn next(&self, cursor: &mut Cursor) -> (Kind, &[u8])
        requires there { answer_index cursor.old < length (said_in self.now) }
        requires at { IsCursorOf self.now cursor.old }
        ensures answer { slice_get (said_in self.now) (answer_index cursor.old)
            ≡ Some (record { kind = result.0; page = result.1.now }) }
        ensures place { answer_index cursor.new ≡ answer_index cursor.old + 1 }
        ensures at { IsCursorOf self.now cursor.new }
    {
        let kind = self.kinds[cursor.line];
        cursor.line += 1;
        let Kind::Page = kind else {
            return (kind, &[]);
        };
        let start = cursor.page;
        cursor.page += self.page_bytes;
        (kind, &self.pages[start..cursor.page])
    }
}
