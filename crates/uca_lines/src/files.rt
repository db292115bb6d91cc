//! Files that are read line by line: what each line must be, where an error comes, and the loop that
//! reads them.

ghost use Rattle.std.specs.Prelude.{◌≡◌, ◌⊎◌, ℕ, ◌<◌, ◌≤◌, List, [], ◌∷◌, ◌++◌, length, Bool, false, None, OnOk, IfErr};
ghost use Rattle.uca_lines.specs.FaultKinds.{CallsReadsAlone};
ghost use Rattle.uca_lines.specs.declared.files.FileForm.{FileForm};

pub mod laws;
mod reading;

pub use reading::read_lines;
pub use uca_values::{FaultKind, TableFault};

/// How files of one kind are cut into lines, and what their errors are called.
#[derive(Drop)]
pub struct FileForm<K> {
    /// How many bytes a line may have, without its LF.
    pub longest: usize,
    /// The kind of a line with more bytes.
    pub too_long: K,
    /// The kind of line 1,000,001. `None` if the format has fewer lines in any case.
    pub too_many: Option<K>,
    /// The kind of a last line that no LF ends.
    pub no_lf: K,
    /// Whether a last line that no LF ends is rejected before what it says is judged.
    pub lf_first: bool,
    /// The kind of an error when the reader failed.
    pub failed_read: K,
    /// The kind of an error when an allocation failed.
    pub no_memory: K,
    /// The kind of a file that ends too early. `None` if a file may end after any line.
    pub early_end: Option<K>,
}

/// The format of table files and of data files.
pub const TABLE_FORM: FileForm<FaultKind> = FileForm {
    longest: 4096,
    too_long: FaultKind::Limit,
    too_many: Some(FaultKind::Limit),
    no_lf: FaultKind::Line,
    lf_first: false,
    failed_read: FaultKind::Read,
    no_memory: FaultKind::Memory,
    early_end: Some(FaultKind::Order),
};

/// Why a file is rejected: the line, and the kind. A file that ends too early has the number of its lines plus one.
#[derive(Debug, Drop)]
pub struct LineFileFault<K> {
    /// The line, counted from 1.
    pub line: u32,
    /// Why it is rejected.
    pub kind: K,
}

impl From<LineFileFault<FaultKind>> for TableFault {
    ghost from_gives = { λ fault given. given ≡ record { line = fault.line; kind = fault.kind } };

    fn from(fault: LineFileFault<FaultKind>) -> TableFault {
        TableFault {
            line: fault.line,
            kind: fault.kind,
        }
    }
}

/// A parser of a file, which takes its lines in turn.
pub trait LineParser {
    /// Why a file is rejected.
    type Kind: Copy + Drop;

    // how the file is cut into lines, and what its errors are called
    ghost form: { FileForm Self.Kind };

    // whether the kind is that of a reader that failed
    ghost is_read: { Self.Kind → Bool };

    // the lines, from the first on, are acceptable in order and say this
    ghost says: { List (List ℕ) → Self → Type 0 };

    // a cause of the kind is in the next line
    ghost cause: { Self → List ℕ → Self.Kind → Type 0 };

    /// How the file is cut into lines, and what its errors are called. Only one of these kinds is that of a
    /// reader that failed.
    fn form() -> FileForm<Self::Kind>
        ensures value { result ≡ form }
        ensures reads { CallsReadsAlone result is_read };

    /// Takes the next line, without its LF. An error is never that of a reader that failed.
    fn take(&mut self, line: &[u8]) -> Result<(), Self::Kind>
        requires { length line.now ≤ form.longest }
        ensures ok { OnOk result ((lines : List (List ℕ)) → says lines self.old → says (lines ++ line.now ∷ []) self.new) }
        ensures fault { IfErr result (λ kind. (kind ≡ form.no_memory) ⊎ cause self.old line.now kind) }
        ensures not_read { IfErr result (λ kind. is_read kind ≡ false) }

        // A format without a limit on lines is one that never has more lines.
        ensures few { form.too_many ≡ None → (lines : List (List ℕ)) → says lines self.new → length lines < 1000000 };
}
