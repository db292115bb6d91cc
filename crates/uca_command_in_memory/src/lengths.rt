//! How much a command wrote.

ghost use Rattle.std.specs.Prelude.{◌≡◌};

/// How many bytes a command wrote, and how many files it made.
#[repr(C)]
#[derive(Clone, Copy, Debug, Drop)]
pub struct Lengths {
    /// The bytes of standard output.
    pub out: usize,
    /// The bytes of standard error.
    pub err: usize,
    /// The bytes of the file that was made and kept.
    pub kept: usize,
    /// How many files were made and kept: 0 or 1.
    pub files: usize,
}

impl Lengths {
    /// Nothing was written, and no file was made.
    pub fn none() -> Lengths
        ensures { result ≡ record { out = 0; err = 0; kept = 0; files = 0 } }
    {
        Lengths {
            out: 0,
            err: 0,
            kept: 0,
            files: 0,
        }
    }
}
