ghost use Rattle.std.specs.Prelude.{◌≡◌, ℕ, List, length, IfOk, IfSome};

/// The power is gone: the flash says no more until it has power again.
#[derive(Clone, Copy, Debug, PartialEq, Eq)]
pub struct PowerGone;

/// Flash that many threads read at once, while one owner programs, copies and erases.
pub trait SharedNand {
    /// What shows which bytes a version's page has. It lasts for good, and its clauses are all that it is for: it need have no bytes.
    type Token: Drop;

    /// The token tells that on this flash the version with this number has these bytes.
    ghost tells: { Self → Self.Token → ℕ → List ℕ → Type 0 };

    /// How many bytes a page has.
    ghost page_bytes: { Self → ℕ };

    /// Reads a page. The number is that of the version whose bytes were read. A page that is being programmed or erased, or was erased, has none, or any
    /// version that it has had. Any bytes may be in `out` then.
    fn read(&self, page: u64, out: &mut [u8]) -> Result<Option<(u64, Self::Token)>, PowerGone>
        requires { length out.old ≡ page_bytes self.now }
        ensures version { IfOk result
            (λ found. IfSome found (λ it. tells self.now it.1 it.0 out.new)) }
        ensures size { length out.new ≡ page_bytes self.now };
}
