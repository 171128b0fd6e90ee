//! What comes next as a run: bytes of a piece that are taken at once, without a state between their units.
//!
//! - `numbers`: numbers one after another. `entire`: a part that may be there whole. `ahead`: whether bytes begin with
//!   a value. `leaf`: a number. `content`: content behind its length. `sort`: which of them a part is.
ghost use Rattle.std.specs.Prelude.{◌≡◌, ◌+◌, ◌≤◌, ◌<◌, ◌%◌, length};

pub(crate) mod ahead;
pub mod content;
pub mod entire;
pub mod leaf;
pub mod numbers;
pub mod sort;

/// How many bytes of whole units are there: within what is left to read, the piece and the limit.
pub(crate) fn units_there(left: usize, there: usize, space: usize) -> usize
    ensures units { result % 4 ≡ 0 }
    ensures left { result ≤ left }
    ensures there { result ≤ there }
    ensures space { result ≤ space }
{
    let most = left.min(there).min(space);
    most - most % 4
}

/// How many bytes of hyper integers are there: within what is left to read and the piece, and below the limit.
pub(crate) fn hypers_there(left: usize, there: usize, space: usize) -> usize
    ensures units { result % 8 ≡ 0 }
    ensures left { result ≤ left }
    ensures there { result ≤ there }
    ensures space { 0 < result → result < space }
{
    let most = left.min(there).min(space.saturating_sub(1));
    most - most % 8
}

/// How many bytes some bytes of content take with their padding, where these are there, and the limit is not reached
/// before their end; else 0.
#[inline(always)]
pub(crate) fn whole_there(size: u32, there: usize, space: usize) -> usize
    ensures units { result % 4 ≡ 0 }
    ensures size { 0 < result → (size ≤ result) × (result < size + 4) }
    ensures there { result ≤ there }
    ensures space { result ≤ space }
{
    let most = size as usize + 3;
    let whole = most - most % 4;
    if whole <= there && whole <= space {
        whole
    } else {
        0
    }
}
