//! The keys of the rows so far: those of one code point as bits, and the others in a set.

ghost use Rattle.std.specs.Prelude.{◌≡◌, ◌<◌, ◌/◌, ◌==◌, ℕ, true, false, cond, length, OnOk, OnErr};
ghost use Rattle.std.specs.Str.{bytes_eq};
ghost use Rattle.std.specs.Ordering.{nat_cmp};
ghost use Rattle.std.specs.Cmp.Lexicographic.{slice_cmp};
ghost use Rattle.std.specs.BTreeSet.{contains};
ghost use Rattle.uca_table.specs.inside.Keeping.{has_bit, kept};

use std::alloc::{AllocError, Allocator};
use std::collections::BTreeSet;

/// Some keys. Each key is a list of code points.
#[derive(Drop)]
pub struct RowKeys<A: Allocator> {
    // those of one code point
    bits: Vec<u64, A>,
    // the others
    longer: BTreeSet<Vec<char, A>, A>,
}

impl<A: Allocator + Copy> RowKeys<A> {
    /// No keys. It takes no memory.
    pub fn new(alloc: A) -> Self
        ensures { (key : _) → kept (λ k. k.items) result.bits.items (contains (λ a b. slice_cmp nat_cmp a.items b.items) result.longer) key ≡ false }
    {
        RowKeys {
            bits: Vec::new(alloc),
            longer: BTreeSet::new(alloc),
        }
    }

    /// Whether a key is one of these.
    pub fn contains(&self, key: &Vec<char, A>) -> bool
        ensures { result ≡ kept (λ k. k.items) self.now.bits.items (contains (λ a b. slice_cmp nat_cmp a.items b.items) self.now.longer) key.now }
    {
        match key.as_slice() {
            [point] => has_bit(&self.bits, *point),
            _ => self.longer.contains(key),
        }
    }

    /// Adds a key.
    ///
    /// # Errors
    ///
    /// An allocation that fails. Then the keys are the same as before.
    pub fn insert(&mut self, alloc: A, key: &[char]) -> Result<(), AllocError>
        ensures added { OnOk result ((other : _) →
            kept (λ k. k.items) self.new.bits.items (contains (λ a b. slice_cmp nat_cmp a.items b.items) self.new.longer) other
            ≡ cond (bytes_eq key.now other.items) true
            (kept (λ k. k.items) self.old.bits.items (contains (λ a b. slice_cmp nat_cmp a.items b.items) self.old.longer) other)) }
        ensures same { OnErr result ((other : _) →
            kept (λ k. k.items) self.new.bits.items (contains (λ a b. slice_cmp nat_cmp a.items b.items) self.new.longer) other
            ≡ kept (λ k. k.items) self.old.bits.items (contains (λ a b. slice_cmp nat_cmp a.items b.items) self.old.longer) other) }
    {
        if key.len() == 1 {
            return add_bit(&mut self.bits, key[0]);
        }
        let key = Vec::from_slice(alloc, key)?;
        self.longer.insert(key)?;
        Ok(())
    }
}

fn has_bit(bits: &[u64], point: char) -> bool
    ensures { result ≡ has_bit bits.now point }
{
    let code = point as usize;
    let at = code / 64;
    at < bits.len() && (bits[at] >> (code % 64)) & 1 == 1
}

fn add_bit<A: Allocator>(bits: &mut Vec<u64, A>, point: char) -> Result<(), AllocError>
    ensures added { OnOk result ((other : ℕ) →
        has_bit bits.new.items other ≡ cond (point == other) true (has_bit bits.old.items other)) }
    ensures same { OnErr result ((other : ℕ) → has_bit bits.new.items other ≡ has_bit bits.old.items other) }
{
    match make_room(bits, point as usize / 64) {
        Ok(()) => {
            set_bit(bits, point as usize);
            Ok(())
        }
        Err(error) => Err(error),
    }
}

// Makes room for a word at this position.
fn make_room<A: Allocator>(bits: &mut Vec<u64, A>, at: usize) -> Result<(), AllocError>
    requires { at < 0x4400 }
    ensures room { OnOk result (at < length bits.new.items) }
    ensures same { (point : ℕ) → has_bit bits.new.items point ≡ has_bit bits.old.items point }
{
    if at < bits.len() {
        return Ok(());
    }
    bits.resize(at + 1, 0)
}

fn set_bit(bits: &mut [u64], code: usize)
    requires { code / 64 < length bits.old }
    ensures { (other : ℕ) → has_bit bits.new other ≡ cond (code == other) true (has_bit bits.old other) }
{
    bits[code / 64] |= 1 << (code % 64);
}
