//! What a text of the RFCs' language is in the dialect, and what each line and each construct of the dialect is.
ghost use Rattle.xdr_dialect.specs.Laws.{TextsStay, TokensStay};
ghost use Rattle.xdr_dialect.specs.Constructs.{Kinds, Tags, Others};
ghost use Rattle.xdr_dialect.specs.Lines.{Texts, Sections, Hashes, Gaps};

/// A text of the RFCs' language has no lines of `%` and `#` but in comments, and stays what it is. The call does
/// nothing.
pub fn texts_stay()
    ensures { TextsStay }
{}

/// Tokens without a construct of the dialect stay what they are. The call does nothing.
#[tactic(auto, using(crate::proofs::Same::tokens_stay))]
pub fn tokens_stay()
    ensures { TokensStay }
{}

/// Each construct of the dialect is what its equation says. The call does nothing.
pub fn constructs_are()
    ensures kinds { Kinds }
    ensures tags { Tags }
    ensures others { Others }
{}

/// Of a text that begins with a line of the dialect there is left what the line's equation says. The call does nothing.
pub fn lines_are()
    ensures texts { Texts }
    ensures sections { Sections }
    ensures hashes { Hashes }
    // Comments are blanks between the words of a line of `#`.
    ensures gaps { Gaps }
{}
