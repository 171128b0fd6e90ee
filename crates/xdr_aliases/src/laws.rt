//! What names stand for, and which tokens stay what they are.
ghost use Rattle.xdr_aliases.specs.Numbered.{NamesAre, OthersStay};
ghost use Rattle.xdr_aliases.specs.Laws.{AliasesStay};

/// Tokens in which no name stands between `=` and `;` stay what they are. The call does nothing.
#[tactic(auto, using(crate::proofs::Staying::aliases_stay))]
pub fn aliases_stay()
    ensures { AliasesStay }
{}

/// A name between `=` and `;` is the number that the text gives it, where it gives no name two, and every other token
/// is what it was. The call does nothing.
pub fn aliases_are()
    ensures names { NamesAre }
    ensures others { OthersStay }
{}
