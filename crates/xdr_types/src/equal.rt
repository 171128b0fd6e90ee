//! Equality of values is equality of trees.
ghost use Rattle.std.specs.Prelude.{◌≡◌, ◌↔◌, IsTrue};
ghost use Rattle.std.specs.Cmp.{on_equiv, on_per, partial_equiv_from_equiv};
ghost use Rattle.std.specs.Ordering.{on};
ghost use Rattle.xdr_types.specs.View.{tree, values};
ghost use Rattle.xdr_types.specs.Same.{same, same_values};
ghost use Rattle.xdr_types.specs.Private.Same.{same_equivalence};

use crate::value::Value;

#[cycle(same)]
fn same_value(a: &Value, b: &Value) -> bool
    ensures { result ≡ same (tree a.now) (tree b.now) }
{
    match (a, b) {
        (Value::Int(m), Value::Int(n)) => m == n,
        (Value::Unsigned(m), Value::Unsigned(n)) => m == n,
        (Value::Hyper(m), Value::Hyper(n)) => m == n,
        (Value::UnsignedHyper(m), Value::UnsignedHyper(n)) => m == n,
        (Value::Bool(m), Value::Bool(n)) => m == n,
        (Value::Numbered(m), Value::Numbered(n)) => m == n,
        (Value::Bytes(m), Value::Bytes(n)) => m == n,
        (Value::List(m), Value::List(n)) => m.len() == n.len() && are_same(m, n),
        (Value::Group(m), Value::Group(n)) => are_same(m, n),
        (
            Value::Choice { tag, part },
            Value::Choice {
                tag: other,
                part: rest,
            },
        ) => { tag == other && same_value(part, rest) }
        (Value::Maybe(None), Value::Maybe(None)) => true,
        (Value::Maybe(Some(m)), Value::Maybe(Some(n))) => same_value(m, n),
        (Value::Nothing, Value::Nothing) => true,
        _ => false,
    }
}

#[cycle(same)]
fn are_same(a: &Vec<Value>, b: &Vec<Value>) -> bool
    ensures { result ≡ same_values (values a.now.items) (values b.now.items) }
{
    if a.len() != b.len() {
        return false;
    }
    for (i, x) in a.iter().enumerate() {
        if !same_value(x, &b[i]) {
            return false;
        }
    }
    true
}

impl PartialEq for Value {
    ghost eq = { on tree same };

    ghost laws = { on_per tree (partial_equiv_from_equiv same_equivalence) };

    fn eq(&self, other: &Value) -> bool {
        same_value(self, other)
    }
}

impl Eq for Value {
    ghost laws = { on_equiv tree same_equivalence };
}

/// Whether two values are the same, `a == b`: they are, exactly where their trees are.
pub fn is_equal(a: &Value, b: &Value) -> bool
    ensures { IsTrue result ↔ (tree a.now ≡ tree b.now) }
{
    a == b
}
