//! Where an encoding goes, a few bytes at a time.
ghost use Rattle.std.specs.Prelude.{◌≡◌, ◌++◌, List, ℕ, [], MatchResult};

/// The bytes were not put.
#[derive(Clone, Copy, Debug)]
pub struct NotPut;

/// Takes bytes in order.
pub trait Put {
    /// From the first state to the second these bytes were put.
    ghost sends: { Self → Self → List ℕ → Type 0 };

    /// From the first state to the second not all of these bytes could be put.
    ghost cuts: { Self → Self → List ℕ → Type 0 };

    /// Puts all of the bytes.
    fn put(&mut self, bytes: &[u8]) -> Result<(), NotPut>
        ensures { MatchResult result (λ _. sends self.old self.new bytes.now) (λ _. cuts self.old self.new bytes.now) };

    ghost none: { (a : Self) → sends a a [] };

    ghost trans: { (a b c : Self) (x y : List ℕ) → sends a b x → sends b c y → sends a c (x ++ y) };

    ghost after: { (a b c : Self) (x y : List ℕ) → sends a b x → cuts b c y → cuts a c (x ++ y) };

    ghost longer: { (a b : Self) (x y : List ℕ) → cuts a b x → cuts a b (x ++ y) };
}

impl Put for Vec<u8> {
    ghost use Rattle.std.proofs.Common.{sym, ◌∙◌, ap, append_assoc};
    ghost use Rattle.std.proofs.lemmas.List.{append-nil};

    ghost sends = { λ a b x. b.items ≡ a.items ++ x };

    ghost cuts = { λ a b x. Unit {0} };

    ghost none = { λ a. sym (append-nil a.items) };

    ghost trans = { λ a b c x y e f. f ∙ ap (λ (z : List ℕ). z ++ y) e ∙ append_assoc a.items x y };

    ghost after = { λ a b c x y e f. tt };

    ghost longer = { λ a b x y e. tt };

    fn put(&mut self, bytes: &[u8]) -> Result<(), NotPut> {
        match self.extend_from_slice(bytes) {
            Ok(()) => Ok(()),
            Err(_) => Err(NotPut),
        }
    }
}

/// No byte at all.
pub fn put_nothing<P: Put>(_out: &mut P) -> Result<(), NotPut>
    ensures { MatchResult result (λ _. P.sends _out.old _out.new []) (λ _. P.cuts _out.old _out.new []) }
{
    Ok(())
}
