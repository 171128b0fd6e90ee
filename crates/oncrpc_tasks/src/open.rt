//! Where texts of declarations come from.
ghost use Rattle.std.specs.Prelude.{◌≡◌, ◌<◌, ℕ, List, Option, None, Some, IfOk, IfErr, OnOk, OnErr, true, false};
ghost use Rattle.std.specs.Prelude.{if◌then◌else◌};
ghost use Rattle.std.specs.Str.{bytes_eq};
ghost use Rattle.std.specs.Io.KnownBytes.{Keeps};
ghost use Rattle.xdr_io.specs.Reported.{Counts, reported_count};

use xdr_io::{MemorySource, ReadFault, Source};

/// Opens texts by their names.
pub trait Opener {
    /// A text that was opened.
    type Text: Source + Drop;

    /// The bytes that stand under a name, where they are reported.
    ghost reported: { Self → List ℕ → Option (List ℕ) } = { λ _ _. None };

    /// How many texts could not be opened, where that is reported.
    ghost failures: { Self → Option ℕ } = { λ _. None };

    /// Opens the text with this name, at its beginning. A fault opens none. What is reported of names stays the same.
    fn open(&mut self, name: &str) -> Result<Self::Text, ReadFault>
        ensures text { IfOk result (λ text. Keeps (reported self.old name.now) (Self.Text.left text)) }
        ensures none_failed { OnOk result (Counts 0 (failures self.old) (failures self.new)) }
        ensures failed { OnErr result (Counts 1 (failures self.old) (failures self.new)) }
        ensures same { reported self.new ≡ reported self.old };
}

/// Opens one text, which is lent, by its name; no text has another name. It gives at most `piece` bytes a read, and
/// the read of number `failing`, from 1, fails.
#[derive(Drop)]
pub struct MemoryOpener<'a> {
    name: &'a str,
    text: &'a [u8],
    piece: usize,
    failing: Option<u64>,
    failures: u64,
    ghost some: { 0 < piece },
}

impl<'a> MemoryOpener<'a> {
    /// An opener that has opened nothing yet.
    pub fn new(name: &'a str, text: &'a [u8], piece: usize, failing: Option<u64>) -> Self
        requires { 0 < piece }
        // It has the one text under its name,
        ensures reported { ⟦<MemoryOpener<'a> as Opener>⟧.reported result name.now ≡ Some text.now }
        // and has failed at no name.
        ensures failures { ⟦<MemoryOpener<'a> as Opener>⟧.failures result ≡ Some 0 }
        // Reads of the text give so many bytes at most,
        ensures piece { result.piece ≡ piece }
        // and the read of this number fails.
        ensures failing { result.failing ≡ failing }
    {
        MemoryOpener {
            name,
            text,
            piece,
            failing,
            failures: 0,
        }
    }
}

impl<'a> Opener for MemoryOpener<'a> {
    type Text = MemorySource<'a>;

    ghost reported = { λ s name. if bytes_eq name s.name.now then Some s.text.now else None };

    ghost failures = { λ s. reported_count s.failures };

    #[tactic(auto, using(crate::proofs::Counts::no_reads))]
    fn open(&mut self, name: &str) -> Result<MemorySource<'a>, ReadFault>
        ensures text { IfOk result (λ text.
            Keeps (if bytes_eq name.now self.old.name.now then Some self.old.text.now else None)
            (⟦<MemorySource<'a> as Source>⟧.left text)) }
        ensures own { IfOk result (λ _. bytes_eq name.now self.old.name.now ≡ true) }
        ensures other { IfErr result (λ _. bytes_eq name.now self.old.name.now ≡ false) }
        ensures none_failed { OnOk result
            (Counts 0 (reported_count self.old.failures) (reported_count self.new.failures)) }
        ensures failed { OnErr result (Counts 1 (reported_count self.old.failures) (reported_count self.new.failures)) }
        ensures gives { IfOk result (λ text. (text.piece ≡ self.old.piece) × (text.failing ≡ self.old.failing)
            × (text.reads ≡ 0)) }
        ensures stays { (self.new.name ≡ self.old.name) × (self.new.text ≡ self.old.text)
            × (self.new.piece ≡ self.old.piece) × (self.new.failing ≡ self.old.failing) }
        ensures same { ⟦<MemoryOpener<'a> as Opener>⟧.reported self.new
            ≡ ⟦<MemoryOpener<'a> as Opener>⟧.reported self.old }
    {
        if name == self.name {
            Ok(MemorySource::new(self.text, self.piece, self.failing))
        } else {
            self.failures = self.failures.saturating_add(1);
            Err(ReadFault)
        }
    }
}
