ghost use Rattle.std.specs.Prelude.{◌≡◌, ◌<◌, ◌≤◌, ◌⊎◌, ℕ, List, length, Some, IfOk, IfSome, OnOk, OnErr};
ghost use Rattle.geometry.specs.Sectors.{Sector};
ghost use Rattle.shared_nand.specs.Shown.{value_numbered, with_value, with_trimmed, number_found, KeepsBytes};

use version_map::Place;

/// The layer that has the flash's commands: it holds an array, or it is closed.
pub trait Layer {
    /// As the flash's, which is read beside it.
    type Token: Drop;

    /// Why a call did nothing, or an unknown part.
    type Failure: Drop;

    /// The layer is open, and its flash holds this array.
    ghost holds: { Self → (ℕ → Sector) → Type 0 };

    /// A command has failed, and the layer has to be opened again.
    ghost is_closed: { Self → Type 0 };

    /// What it has programmed with each number below the next one.
    ghost bytes_of: { Self → ℕ → List ℕ };

    /// Each number that it has given while it is open is below this.
    ghost next_number: { Self → ℕ };

    /// Each page that it names is below this.
    ghost pages: { Self → ℕ };

    /// How many bytes a page has.
    ghost page_bytes: { Self → ℕ };

    /// The token tells that the version with this number has these bytes.
    ghost tells: { Self → Self.Token → ℕ → List ℕ → Type 0 };

    /// Writes a sector. At `Ok` this page has it, with this number, which was given to no version before.
    fn write(&mut self, sector: u32, bytes: &[u8]) -> Result<Place, Self::Failure>
        requires { length bytes.now ≡ page_bytes self.old }
        ensures acknowledged { (array : ℕ → Sector) → holds self.old array
            → OnOk result (holds self.new (with_value array sector (Some bytes.now))) }
        ensures fails { (array : ℕ → Sector) → holds self.old array
            → OnErr result (holds self.new array ⊎ is_closed self.new) }
        ensures programmed { IfOk result (λ place. bytes_of self.new place.number ≡ bytes.now) }
        ensures fresh { IfOk result (λ place. next_number self.old ≤ place.number) }
        ensures given { IfOk result (λ place. (0 < place.number) × (place.number < next_number self.new)) }
        ensures page { IfOk result (λ place. place.page < pages self.new) }
        ensures next { next_number self.old ≤ next_number self.new }
        ensures keeps { KeepsBytes (next_number self.old) (bytes_of self.old) (bytes_of self.new) }
        ensures pages { pages self.new ≡ pages self.old }
        ensures page_bytes { page_bytes self.new ≡ page_bytes self.old }
        ensures tells { (token : Self.Token) (n : ℕ) (bytes : List ℕ)
            → tells self.old token n bytes → tells self.new token n bytes };

    /// Empties so many sectors in a row, from the first one on.
    fn trim(&mut self, first: u32, count: u32) -> Result<(), Self::Failure>
        ensures acknowledged { (array : ℕ → Sector) → holds self.old array
            → OnOk result (holds self.new (with_trimmed array first count)) }
        ensures fails { (array : ℕ → Sector) → holds self.old array
            → OnErr result (holds self.new array ⊎ is_closed self.new) }
        ensures next { next_number self.old ≤ next_number self.new }
        ensures keeps { KeepsBytes (next_number self.old) (bytes_of self.old) (bytes_of self.new) }
        ensures pages { pages self.new ≡ pages self.old }
        ensures page_bytes { page_bytes self.new ≡ page_bytes self.old }
        ensures tells { (token : Self.Token) (n : ℕ) (bytes : List ℕ)
            → tells self.old token n bytes → tells self.new token n bytes };

    /// A page that has the sector's newest version, with its number; none if the sector is empty.
    fn locate(&mut self, sector: u32) -> Result<Option<Place>, Self::Failure>
        ensures found { (array : ℕ → Sector) → holds self.old array → IfOk result
            (λ found. array sector ≡ value_numbered (bytes_of self.old) (number_found found)) }
        ensures given { IfOk result (λ found. IfSome found
            (λ place. (0 < place.number) × (place.number < next_number self.old))) }
        ensures page { IfOk result (λ found. IfSome found (λ place. place.page < pages self.old)) }
        ensures holds { (array : ℕ → Sector) → holds self.old array → holds self.new array }
        ensures bytes { bytes_of self.new ≡ bytes_of self.old }
        ensures next { next_number self.new ≡ next_number self.old }
        ensures pages { pages self.new ≡ pages self.old }
        ensures page_bytes { page_bytes self.new ≡ page_bytes self.old }
        ensures tells { (token : Self.Token) (n : ℕ) (bytes : List ℕ)
            → tells self.old token n bytes → tells self.new token n bytes };

    /// What a token tells of a version is what was programmed with its number. It does nothing.
    fn knows(&self, token: &Self::Token)
        requires { (n : ℕ) × (bytes : List ℕ) × (n < next_number self.now)
            × tells self.now token.now n bytes }
        ensures { (n : ℕ) (bytes : List ℕ) → n < next_number self.now
            → tells self.now token.now n bytes → bytes ≡ bytes_of self.now n };
}
