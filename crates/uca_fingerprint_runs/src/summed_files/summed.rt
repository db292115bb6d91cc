//! A parser of a file of lines that sums the bytes of the lines. It hashes each line before the file's own parser takes
//! it. So the bytes are read once, and are not kept.

ghost use Rattle.uca_fingerprint_runs.specs.Sums.{HoldsLines};

use sha2::{Digest, Sha256};
use uca_lines::files::{FileForm, LineParser};

/// A parser, and a hasher of the lines that it took.
#[derive(Drop)]
pub(crate) struct Summed<P: LineParser> {
    pub(crate) parser: P,
    pub(crate) hasher: Sha256,
}

impl<P: LineParser> Summed<P> {
    ghost use Rattle.std.specs.Prelude.{◌≡◌, []};

    /// A parser that has taken no line.
    pub(crate) fn new(parser: P) -> Summed<P>
        ensures parser { result.parser ≡ parser }
        ensures empty { HoldsLines result.hasher [] }
    {
        Summed {
            parser,
            hasher: Sha256::new(),
        }
    }
}

impl<P: LineParser> LineParser for Summed<P> {
    type Kind = P::Kind;

    ghost form = { P.form };

    ghost is_read = { P.is_read };

    ghost says = { λ lines s. P.says lines s.parser × HoldsLines s.hasher lines };

    ghost cause = { λ s line kind. P.cause s.parser line kind };

    fn form() -> FileForm<P::Kind> {
        P::form()
    }

    fn take(&mut self, line: &[u8]) -> Result<(), P::Kind> {
        self.hasher.update(line);
        self.hasher.update(b"\n");
        self.parser.take(line)
    }
}
