//! How the bytes of a piece are taken: a header at a time, and a fragment at a time.
use super::RecordReader;
use crate::fault::{RecordFault, RecordStep};
use crate::header::{Heading, heading_of};
use crate::place::{Begun, Fragment, Place};
use crate::steps::{after_content, after_header, after_heading};

impl RecordReader {
    ghost use Rattle.std.specs.Prelude.{◌≡◌, ◌≤◌, ◌<◌, ◌^◌, ◌++◌, ◌↔◌, ℕ, List, [], ◌∷◌, length, take, IsTrue};
    ghost use Rattle.rpc_record.specs.Represents.{Represents, IsTaking, limit_of, Feeds, Reports, Stays};
    ghost use Rattle.rpc_record.specs.Private.Steps.{Advances, IsStepped};
    ghost use Rattle.rpc_record.specs.Marked.{header};
    ghost use Rattle.rpc_record.specs.Fields.{InHeader, begun_bytes};
    ghost use Rattle.rpc_record.specs.Reading.{capped};
    ghost use Rattle.rpc_record.specs.declared.place.Place.TheVariants as place;

    /// Takes the bytes of a piece, as `feed`: a header at a time, and a fragment at a time.
    #[inline(never)]
    pub(super) fn feed_on(&mut self, piece: &[u8]) -> Result<RecordStep, RecordFault>
        ensures limit { limit_of self.new ≡ limit_of self.old }
        ensures feeds { Feeds self.old self.new piece.now result }
        ensures reports { Reports self.old piece.now result }
        ensures stays { Stays self.old result }
    {
        let mut used = 0;
        while used < piece.len() && self.is_taking() {
            used += self.advance(&piece[used..]);
        }
        match self.place {
            Place::Whole => Ok(RecordStep::Whole { used }),
            Place::Broken(fault) => Err(fault),
            _ => Ok(RecordStep::More),
        }
    }

    fn is_taking(&self) -> bool
        ensures { IsTrue result ↔ IsTaking self.now }
    {
        match self.place {
            Place::Between | Place::Header { .. } | Place::Content(_) => true,
            Place::Whole | Place::Broken(_) => false,
        }
    }

    /// Takes some of the bytes, within a header or a fragment, and says how many.
    fn advance(&mut self, piece: &[u8]) -> usize
        requires some { 0 < length piece.now }
        requires taking { IsTaking self.old }
        ensures { Advances self.old self.new piece.now result }
    {
        match self.place {
            Place::Between => self.begin_header(self.taken, piece),
            Place::Header {
                at,
                begun: Begun::Nothing,
            } => self.begin_header(at, piece),
            Place::Header { at, begun } => self.take_header(at, begun, piece[0]),
            Place::Content(fragment) => self.take_content(fragment, piece),
            Place::Whole | Place::Broken(_) => unreachable!(),
        }
    }

    /// Takes a whole header, or its first byte where fewer than four are there.
    fn begin_header(&mut self, at: u64, piece: &[u8]) -> usize
        requires { 0 < length piece.now }
        ensures some { 0 < result }
        ensures within { result ≤ length piece.now }
        ensures stepped { IsStepped self.new }
        ensures limit { limit_of self.new ≡ limit_of self.old }
        ensures represents { (bytes : List ℕ) (rs : List (List ℕ))
            → InHeader (limit_of self.old) rs self.old.content.items at [] bytes
            → self.old.taken ≡ capped (length bytes)
            → Represents self.new (bytes ++ take result piece.now) rs }
    {
        match piece {
            [a, b, c, d, ..] => self.take_heading(at, heading_of(*a, *b, *c, *d)),
            _ => self.take_header(at, Begun::Nothing, piece[0]),
        }
    }

    /// Takes a whole header.
    fn take_heading(&mut self, at: u64, heading: Heading) -> usize
        requires { heading.count < 2 ^ 31 }
        ensures four { result ≡ 4 }
        ensures stepped { IsStepped self.new }
        ensures limit { limit_of self.new ≡ limit_of self.old }
        ensures represents { (bytes : List ℕ) (rs : List (List ℕ))
            → InHeader (limit_of self.old) rs self.old.content.items at [] bytes
            → self.old.taken ≡ capped (length bytes)
            → Represents self.new (bytes ++ header heading.last heading.count) rs }
    {
        self.taken = self.taken.saturating_add(4);
        self.place = after_heading(at, heading, self.taken, self.space());
        4
    }

    /// Takes the next byte of a header.
    fn take_header(&mut self, at: u64, begun: Begun, byte: u8) -> usize
        ensures one { result ≡ 1 }
        ensures stepped { IsStepped self.new }
        ensures limit { limit_of self.new ≡ limit_of self.old }
        ensures represents { (bytes : List ℕ) (rs : List (List ℕ))
            → InHeader (limit_of self.old) rs self.old.content.items at (begun_bytes begun) bytes
            → self.old.taken ≡ capped (length bytes)
            → Represents self.new (bytes ++ byte ∷ []) rs }
    {
        self.taken = self.taken.saturating_add(1);
        self.place = after_header(at, begun, byte, self.taken, self.space());
        1
    }

    /// Takes bytes of a fragment. Where memory is refused it takes them all, and is broken.
    fn take_content(&mut self, fragment: Fragment, piece: &[u8]) -> usize
        requires some { 0 < length piece.now }
        requires here { self.old.place ≡ place.Content fragment }
        ensures { Advances self.old self.new piece.now result }
    {
        let n = piece.len().min(fragment.left as usize);
        match self.content.extend_from_slice(&piece[..n]) {
            Ok(()) => {
                self.taken = self.taken.saturating_add(n as u64);
                self.place = after_content(fragment, n as u32, self.taken);
                n
            }
            Err(_) => {
                self.place = Place::Broken(RecordFault::NoMemory);
                piece.len()
            }
        }
    }
}
