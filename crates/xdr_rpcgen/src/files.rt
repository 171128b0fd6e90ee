//! Several texts as one.
ghost use Rattle.std.specs.Prelude.{◌≡◌, IfOk};
ghost use Rattle.xdr_rpcgen.specs.Files.{contents, feeds, joined, place_in};

use std::alloc::{AllocError, Global};

/// The texts in their order as one, with a line feed between two, so that a name that one declares is found by another.
///
/// It fails where a growth was refused.
#[tactic(auto, unfolding(crate::specs::Files::behind_feeds))]
pub fn join_texts(alloc: Global, texts: &[&[u8]]) -> Result<Vec<u8>, AllocError>
    ensures { IfOk result (λ v. v.items ≡ joined (contents texts.now)) }
{
    let mut whole = Vec::new(alloc);
    let [first, rest @ ..] = texts else {
        return Ok(whole);
    };
    whole.extend_from_slice(first)?;
    let mut left = rest;
    while let [text, others @ ..] = left {
        whole.push(b'\n')?;
        whole.extend_from_slice(text)?;
        left = others;
    }
    Ok(whole)
}

/// How many line feeds the text has.
fn feeds(text: &[u8]) -> usize
    ensures { result ≡ feeds text.now }
{
    text.iter().filter(|byte| **byte == b'\n').count()
}

/// The text, from 0, in which a line of all of them stands, as `join_texts` joins them, and the line there. Lines count
/// from 1. The last text has all lines that are left.
#[tactic(auto, unfolding(crate::specs::Files::place_in))]
pub fn place_in(texts: &[&[u8]], line: usize) -> (usize, usize)
    ensures number { result.0 ≡ (place_in (contents texts.now) line).0 }
    ensures line { result.1 ≡ (place_in (contents texts.now) line).1 }
{
    let mut number: usize = 0;
    let mut left = line;
    let mut rest = texts;
    while let [first, others @ ..] = rest {
        let behind = left.saturating_sub(feeds(first));
        if others.is_empty() || behind <= 1 {
            break;
        }
        left = behind - 1;
        number += 1;
        rest = others;
    }
    (number, left)
}
