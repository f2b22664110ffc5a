ghost use Rattle.std.specs.Prelude.{◌≡◌, IfErr, IfSome, None, OnOk, Option, ℕ, List};

use std::io::Write;

/// Why a file was not opened.
#[derive(Clone, Copy, Debug, PartialEq, Eq)]
pub enum OpenFault {
    /// The system refused it.
    Refused,
    /// The run already reads or writes this file.
    InUse,
}

/// A file that is opened by its name, and then written.
pub trait NamedFile: Write {
    ghost use Rattle.streams.specs.declared.named_file.OpenFault.{OpenFault};

    /// The name by which it was opened, if that is known.
    ghost opened_as: { Self → Option (List ℕ) } = { λ _. None };

    /// Why the last open that failed was refused, if that is known.
    ghost refused_as: { Self → Option OpenFault } = { λ _. None };

    /// Opens the file. Its content is kept until the first byte is written.
    fn open(&mut self, name: &str) -> Result<(), OpenFault>
        ensures bytes { Self.contents self.new ≡ Self.contents self.old }
        ensures opened { OnOk result (IfSome (opened_as self.new) (λ known. known ≡ name.now)) }
        ensures refused { IfErr result
            (λ fault. IfSome (refused_as self.new) (λ known. known ≡ fault)) };
}
