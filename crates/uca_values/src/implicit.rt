//! Implicit weights: the elements of the code points that no row lists (UTS #10, section 10.1.3).

ghost use Rattle.std.specs.Prelude.{◌≡◌, ℕ, ◌<◌, ◌≤◌, [], ◌∷◌, Some, None};
ghost use Rattle.uca_values.specs.Content.{properties_of};
ghost use Rattle.uca_values.specs.Implicit.{implicit, implicit_pair, block_pair, unlisted_pair, lead_of, base_of};
ghost use Rattle.uca_values.specs.Worked.{WorkedImplicitWeights};

use crate::{Data, Header, ImplicitRange};
use std::alloc::Allocator;
use uca_weights::Element;

/// The lead of code points that are neither Han nor in a range of the header.
const OTHERS: u16 = 0xFBC0;
/// The lead of unified ideographs outside core Han.
const OTHER_HAN: u16 = 0xFB80;
/// The lead of core Han.
const CORE_HAN: u16 = 0xFB40;
/// How many code points share one first weight. This is also the high bit of each second weight.
const BLOCK: u32 = 0x8000;

impl<A: Allocator> Header<A> {
    /// The two elements of a code point that no row lists: `[.AAAA.0020.0002][.BBBB.0000.0000]`, where
    /// BBBB is 8000 or more (UTS #10, section 10.1.3). The first case that applies gives the weights: a
    /// range of this header, core Han, other unified ideographs, any other code point.
    ///
    /// It takes no memory and cannot fail.
    pub fn implicit<B: Allocator>(&self, data: &Data<B>, point: char) -> [Element; 2]
        ensures { result ≡ implicit self.now.ranges (properties_of «data».now) point }
    {
        match lead(&self.ranges, point) {
            Some(lead) => pair(lead, point as u32 - base(&self.ranges, lead, point)),
            None => unlisted(data, point),
        }
    }
}

// The lead of the range that contains the code point.
fn lead(ranges: &[ImplicitRange], point: char) -> Option<u16>
    ensures { result ≡ lead_of ranges.now point }
{
    for range in ranges {
        if range.first <= point && point <= range.last {
            return Some(range.lead);
        }
    }
    None
}

// The least first code point of the ranges with the lead, or the code point itself if it is less.
fn base(ranges: &[ImplicitRange], lead: u16, point: char) -> u32
    ensures { result ≡ base_of ranges.now lead point }
{
    let mut least = point;
    for range in ranges {
        if range.lead == lead && range.first < least {
            least = range.first;
        }
    }
    least as u32
}

fn pair(lead: u16, low: u32) -> [Element; 2]
    requires { low < 0x8000 }
    ensures { result ≡ implicit_pair lead low }
{
    let first = Element {
        primary: lead,
        secondary: 0x20,
        tertiary: 2,
        mark: false,
    };
    let second = Element {
        primary: (BLOCK + low) as u16,
        secondary: 0,
        tertiary: 0,
        mark: false,
    };
    [first, second]
}

fn block(lead: u16, point: char) -> [Element; 2]
    requires { lead ≤ 0xFBC0 }
    ensures { result ≡ block_pair lead point }
{
    let point = point as u32;
    pair(lead + (point / BLOCK) as u16, point % BLOCK)
}

// The elements of a code point that no range of the header contains.
fn unlisted<B: Allocator>(data: &Data<B>, point: char) -> [Element; 2]
    ensures { result ≡ unlisted_pair (properties_of «data».now) point }
{
    if data.is_core(point) {
        block(CORE_HAN, point)
    } else if data.is_other(point) {
        block(OTHER_HAN, point)
    } else {
        block(OTHERS, point)
    }
}

/// The law that the definition of implicit weights gives the right pairs for U+17000, U+4E00, U+20000
/// and U+10FFFF. The range 17000..18AFF has the lead FB00, core Han is 4E00..9FFF, and other ideographs are
/// 20000..20FFF.
pub fn worked_implicit_weights()
    ensures { WorkedImplicitWeights }
{}
