//! Where an item of an array ends.
ghost use Rattle.std.specs.Prelude.{◌≡◌, ◌<◌, ◌≤◌, drop, length, IfSome};
ghost use Rattle.oncrpc_encode.specs.Private.Scanned.{after, after_plain, after_quoted, end_from, plain};

use super::mark::{Mark, mark_of};

/// Whether a byte stands in a string, and behind a backslash there.
#[derive(Clone, Copy, PartialEq, Eq)]
pub enum Reading {
    Plain,
    Quoted,
    Escaped,
}

/// How far an item has come: whether in a string, and how many brackets deep.
#[derive(Clone, Copy, PartialEq, Eq)]
pub struct Scan {
    pub reading: Reading,
    pub depth: usize,
}

/// The place at which the item ends that begins here, before a comma or a closing bracket that is not its own.
#[tactic(auto, unfolding(crate::specs::Private::Scanned::end_from))]
pub fn end_of(text: &[u8], begin: usize) -> Option<usize>
    requires { begin ≤ length text.now }
    ensures found { result ≡ end_from begin (plain 0) (drop begin text.now) }
    ensures inside { IfSome result (λ end. end < length text.now) }
{
    let mut scan = Scan {
        reading: Reading::Plain,
        depth: 0,
    };
    for place in begin..text.len() {
        match after(scan, mark_of(text[place])) {
            Some(next) => scan = next,
            None => return Some(place),
        }
    }
    None
}

// What the next byte leads to, or nothing where the item ends before it.
fn after(scan: Scan, mark: Mark) -> Option<Scan>
    requires { scan.depth < usize.MAX }
    ensures { result ≡ after scan mark }
{
    let depth = scan.depth;
    match scan.reading {
        Reading::Plain => after_plain(depth, mark),
        Reading::Quoted => Some(after_quoted(depth, mark)),
        Reading::Escaped => Some(Scan {
            reading: Reading::Quoted,
            depth,
        }),
    }
}

fn after_plain(depth: usize, mark: Mark) -> Option<Scan>
    requires { depth < usize.MAX }
    ensures { result ≡ after_plain depth mark }
{
    let (reading, depth) = match mark {
        Mark::Quote => (Reading::Quoted, depth),
        Mark::Opening => (Reading::Plain, depth + 1),
        Mark::Comma | Mark::Closing if depth == 0 => return None,
        Mark::Closing => (Reading::Plain, depth - 1),
        Mark::Backslash | Mark::Comma | Mark::Other => (Reading::Plain, depth),
    };
    Some(Scan { reading, depth })
}

fn after_quoted(depth: usize, mark: Mark) -> Scan
    ensures { result ≡ after_quoted depth mark }
{
    let reading = match mark {
        Mark::Quote => Reading::Plain,
        Mark::Backslash => Reading::Escaped,
        _ => Reading::Quoted,
    };
    Scan { reading, depth }
}
