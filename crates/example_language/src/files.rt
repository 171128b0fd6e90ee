//! Several texts as one, and the text that has a line of all.
ghost use Rattle.std.specs.Prelude.{◌≡◌, IfOk, codes};

use std::alloc::{AllocError, Global};
use xdr_rpcgen::{join_texts, place_in};

/// A line feed stands between two texts, also behind one that ends with its own.
#[tactic(auto, unfolding(xdr_rpcgen::specs::Files::behind_feeds))]
pub fn two_texts(alloc: Global) -> Result<Vec<u8>, AllocError>
    ensures { IfOk result (λ v. v.items ≡ codes "a\n\nb") }
{
    let texts: [&[u8]; 2] = [b"a\n", b"b"];
    join_texts(alloc, &texts)
}

/// Their second line stands behind the line feed with which the first text ends.
#[tactic(auto, unfolding(xdr_rpcgen::specs::Files::place_in))]
pub fn line_of_the_first_text() -> (usize, usize)
    ensures number { result.0 ≡ 0 }
    ensures line { result.1 ≡ 2 }
{
    let texts: [&[u8]; 2] = [b"a\n", b"b"];
    place_in(&texts, 2)
}

/// The third is the first of the second text.
#[tactic(auto, unfolding(xdr_rpcgen::specs::Files::place_in))]
pub fn line_of_the_second_text() -> (usize, usize)
    ensures number { result.0 ≡ 1 }
    ensures line { result.1 ≡ 1 }
{
    let texts: [&[u8]; 2] = [b"a\n", b"b"];
    place_in(&texts, 3)
}

/// An empty text has one line.
#[tactic(auto, unfolding(xdr_rpcgen::specs::Files::place_in))]
pub fn line_behind_an_empty_text() -> (usize, usize)
    ensures number { result.0 ≡ 2 }
    ensures line { result.1 ≡ 1 }
{
    let texts: [&[u8]; 3] = [b"a", b"", b"b"];
    place_in(&texts, 3)
}
