//! The steps of a path, read from its text. Nothing here takes memory.
ghost use Rattle.std.specs.Prelude.{◌≡◌, ℕ, List, ◌∷◌, ◌++◌, length, ◌<◌, MatchOption, IfSome, decimal};
ghost use Rattle.xdr_paths.specs.Nodes as nodes;
ghost use Rattle.xdr_paths.specs.Nodes.{to_field, to_item};
ghost use Rattle.xdr_paths.specs.Paths.{is_mark, HasNoMark, IsStep, step_text, first_text};
ghost use Rattle.xdr_paths.specs.Private.Steps.{step_of, IsEndOrMarked};

use xdr_units::decimal_number;

/// A step of a path.
#[derive(Clone, Copy)]
pub enum Step<'p> {
    /// To the field, or the part of an arm, with this name.
    Field(&'p [u8]),
    /// To the item with this index, from 0.
    Item(u32),
}

// Whether the byte is a dot or a bracket.
fn is_mark(byte: u8) -> bool
    ensures { result ≡ is_mark byte }
{
    byte == b'.' || byte == b'[' || byte == b']'
}

// The bytes before the first dot or bracket, and those from it on.
fn before_mark(text: &[u8]) -> (&[u8], &[u8])
    ensures cut { text.now ≡ result.0.now ++ result.1.now }
    ensures name { HasNoMark result.0.now }
    ensures mark { IsEndOrMarked result.1.now }
{
    for at in 0..text.len() {
        if is_mark(text[at]) {
            return (&text[..at], &text[at..]);
        }
    }
    (text, &[])
}

/// The name that comes first, and the text behind it. `None` where none does.
pub fn first_name(text: &[u8]) -> Option<(Step<'_>, &[u8])>
    // The text is the name and the rest,
    ensures found { IfSome result (λ r. IsStep (step_of r.0)
        × (46 ∷ text.now ≡ step_text (step_of r.0) ++ r.1.now)) }
    ensures less { IfSome result (λ r. length r.1.now < length text.now) }
    // and a text that is so, where the rest is empty or begins with a mark, is read so.
    ensures only { (name rest : List ℕ) → IsStep (to_field name) → IsEndOrMarked rest → text.now ≡ name ++ rest
        → MatchOption result ⊥ (λ r. (step_of r.0 ≡ to_field name) × (r.1.now ≡ rest)) }
{
    let (name, rest) = before_mark(text);
    if name.is_empty() {
        return None;
    }
    Some((Step::Field(name), rest))
}

// The text behind a byte that comes first; none where another does.
fn behind(mark: u8, text: &[u8]) -> Option<&[u8]>
    ensures { MatchOption result ((rest : List ℕ) → text.now ≡ mark ∷ rest → ⊥) (λ r. text.now ≡ mark ∷ r.now) }
{
    let (first, rest) = text.split_first()?;
    if *first == mark { Some(rest) } else { None }
}

// The index that comes first, before a closing bracket, and the text behind it. `None` where none does.
fn first_index(text: &[u8]) -> Option<(Step<'_>, &[u8])>
    // The text is the index, a bracket and the rest,
    ensures found { IfSome result (λ r. IsStep (step_of r.0)
        × (91 ∷ text.now ≡ step_text (step_of r.0) ++ r.1.now)) }
    ensures less { IfSome result (λ r. length r.1.now < length text.now) }
    // and a text that is so is read so.
    ensures only { (index : ℕ) (rest : List ℕ) → IsStep (to_item index) → text.now ≡ decimal index ++ 93 ∷ rest
        → MatchOption result ⊥ (λ r. (step_of r.0 ≡ to_item index) × (r.1.now ≡ rest)) }
{
    let (number, rest) = before_mark(text);
    let index = decimal_number(number)?;
    let rest = behind(b']', rest)?;
    Some((Step::Item(index), rest))
}

/// The first step of a text of steps, each with its mark, and the text behind it. `None` where no step comes first.
pub fn next_step(text: &[u8]) -> Option<(Step<'_>, &[u8])>
    // The text is that of the step and the rest,
    ensures found { IfSome result (λ r. IsStep (step_of r.0) × (text.now ≡ step_text (step_of r.0) ++ r.1.now)) }
    ensures less { IfSome result (λ r. length r.1.now < length text.now) }
    // and a text that is so, where the rest is empty or begins with a mark, is read so.
    ensures only { (step : nodes.Step) (rest : List ℕ) → IsStep step → IsEndOrMarked rest
        → text.now ≡ step_text step ++ rest
        → MatchOption result ⊥ (λ r. (step_of r.0 ≡ step) × (r.1.now ≡ rest)) }
{
    if let Some(name) = behind(b'.', text) {
        return first_name(name);
    }
    first_index(behind(b'[', text)?)
}

/// The first step of a path, and the text behind it. `None` where no step comes first.
pub fn first_step(path: &[u8]) -> Option<(Step<'_>, &[u8])>
    // The text is that of the step and the rest,
    ensures found { IfSome result (λ r. IsStep (step_of r.0) × (path.now ≡ first_text (step_of r.0) ++ r.1.now)) }
    // and a text that is so, where the rest is empty or begins with a mark, is read so.
    ensures only { (step : nodes.Step) (rest : List ℕ) → IsStep step → IsEndOrMarked rest
        → path.now ≡ first_text step ++ rest
        → MatchOption result ⊥ (λ r. (step_of r.0 ≡ step) × (r.1.now ≡ rest)) }
{
    match behind(b'[', path) {
        Some(index) => first_index(index),
        None => first_name(path),
    }
}
