//! Comparisons of stored keys as methods of settings.

ghost use Rattle.std.specs.Prelude.{◌≡◌};
ghost use Rattle.uca_weights.specs.declared.Settings.{Settings};
ghost use Rattle.uca_order.specs.Levels.{lexicographic};
ghost use Rattle.uca_order.specs.Depths.{levels_at};
ghost use Rattle.uca_order.specs.StoredKeys.{stored_level};

use std::cmp::Ordering;
use uca_weights::Settings;

/// Comparisons of stored keys, as methods of [`Settings`]. Bring it into scope by `use uca_collation::StoredKeys`.
pub trait StoredKeys {
    ghost settings: { Self → Settings };

    /// How many levels a comparison has, and a key: 3 to 5.
    fn level_count(self) -> u8
        ensures { result ≡ levels_at (settings self).depth (settings self).weighting };

    /// The order of two stored keys of these settings, and the level at which they differ: 1 to
    /// [`level_count`](StoredKeys::level_count), or 0 if the keys are equal. Any bytes can be compared, as
    /// [`compare_keys`](uca_key::compare_keys) says.
    fn compare_keys(self, left: &[u8], right: &[u8]) -> (Ordering, u8)
        ensures order { result.0 ≡ lexicographic left.now right.now }
        ensures level { result.1 ≡ stored_level (levels_at (settings self).depth (settings self).weighting) left.now right.now };
}

impl StoredKeys for Settings {
    ghost settings = { λ s. s };

    fn level_count(self) -> u8 {
        uca_key::level_count(self.weighting, self.depth)
    }

    fn compare_keys(self, left: &[u8], right: &[u8]) -> (Ordering, u8) {
        uca_key::compare_keys(left, right, self.level_count())
    }
}
