//! The weights of one level of a key, put through their map in place.

ghost use Rattle.std.specs.Prelude.{◌≡◌, ℕ, suc, ◌≤◌, List, Option, length};
ghost use Rattle.uca_weights.specs.declared.Depth.{Depth};
ghost use Rattle.uca_tailorings.specs.Images.{Maps};
ghost use Rattle.uca_tailorings.specs.Moves.{level_images};
ghost use Rattle.uca_images.specs.inside.ImageTables.{IsImageTable};
ghost use Rattle.uca_images.specs.Moving.{HasMoved, EndsLevel, IsWithin};

/// How the weights of a level end.
#[derive(Clone, Copy)]
pub(crate) enum LevelEnd {
    /// By 00 00: this is the index of the byte that follows.
    Next(usize),
    /// With the key.
    Key,
    /// A weight has no image, or the last byte stands alone.
    Missing,
}

/// Puts the weights of the level that begins at `start` through its map, whose images are listed.
pub(crate) fn move_level(images: &[u16], key: &mut [u8], start: usize) -> LevelEnd
    requires full { length images.now ≡ 0x1_0000 }
    requires within { start ≤ length key.old }
    ensures within { IsWithin result (length key.old) }
    ensures moved { (maps : Maps) (depth : Depth) (level more : ℕ) (moved : Option (List ℕ)) →
        IsImageTable (level_images maps level) images.now → HasMoved maps depth level (suc more) start key.old moved →
        EndsLevel maps depth level more result key.new moved }
{
    let mut at = start;
    while at + 1 < key.len() {
        let weight = 256 * u16::from(key[at]) + u16::from(key[at + 1]);
        let image = images[usize::from(weight)];
        if weight == 0 {
            return LevelEnd::Next(at + 2);
        }
        if image == 0 {
            return LevelEnd::Missing;
        }
        let [high, low] = image.to_be_bytes();
        key[at] = high;
        key[at + 1] = low;
        at += 2;
    }
    if at == key.len() {
        LevelEnd::Key
    } else {
        LevelEnd::Missing
    }
}
