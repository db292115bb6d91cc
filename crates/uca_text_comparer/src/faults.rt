//! Why two texts are not compared.

use std::alloc::AllocError;
use thiserror::Error;
use uca_text::TextFault;

/// Which of two texts is rejected, and why.
#[derive(Clone, Copy, Debug, PartialEq, Eq, Error)]
pub enum PairFault {
    /// The left one, or an allocation for both failed.
    #[error("the left text is rejected")]
    Left(TextFault),
    /// The right one. The left one is accepted.
    #[error("the right text is rejected")]
    Right(TextFault),
}

impl From<AllocError> for PairFault {
    ghost use Rattle.std.specs.Prelude.{◌≡◌};
    ghost use Rattle.uca_text.specs.declared.normalize.TextFault.TheVariants.{Memory};
    ghost use Rattle.uca_text_comparer.specs.declared.faults.PairFault.TheVariants.{Left};

    ghost from_gives = { λ _ fault. fault ≡ Left Memory };

    fn from(_error: AllocError) -> PairFault {
        PairFault::Left(TextFault::Memory)
    }
}
