//! A value, and its copy.
ghost use Rattle.std.specs.Prelude.{◌≡◌, IfOk, map};
ghost use Rattle.xdr_types.specs.View.{tree};

use std::alloc::Global;
use xdr_units::NoMemory;

/// A value of XDR (RFC 4506 sections 4.1 to 4.19). `Bytes` are of an opaque or a string, `List` has the items of an
/// array, `Group` one value for each field of a structure.
#[derive(Debug, Drop)]
pub enum Value {
    Int(i32),
    Unsigned(u32),
    Hyper(i64),
    UnsignedHyper(u64),
    Bool(bool),
    Numbered(i32),
    Bytes(Vec<u8>),
    List(Vec<Value>),
    Group(Vec<Value>),
    Choice { tag: i64, part: Box<Value> },
    Maybe(Option<Box<Value>>),
    Nothing,
}

impl Value {
    /// An equal value, in memory of its own.
    pub fn copy(&self, alloc: Global) -> Result<Value, NoMemory>
        ensures { IfOk result (λ v. tree v ≡ tree self.now) }
    {
        copy(self, alloc)
    }
}

#[cycle(copy)]
fn copy(value: &Value, alloc: Global) -> Result<Value, NoMemory>
    ensures { IfOk result (λ v. tree v ≡ tree value.now) }
{
    match value {
        Value::Int(n) => Ok(Value::Int(*n)),
        Value::Unsigned(n) => Ok(Value::Unsigned(*n)),
        Value::Hyper(n) => Ok(Value::Hyper(*n)),
        Value::UnsignedHyper(n) => Ok(Value::UnsignedHyper(*n)),
        Value::Bool(b) => Ok(Value::Bool(*b)),
        Value::Numbered(n) => Ok(Value::Numbered(*n)),
        Value::Bytes(bytes) => Ok(Value::Bytes(bytes.to_vec(alloc)?)),
        Value::List(items) => Ok(Value::List(copy_items(items, alloc)?)),
        Value::Group(items) => Ok(Value::Group(copy_items(items, alloc)?)),
        Value::Choice { tag, part } => {
            let part = Box::new(alloc, copy(part, alloc)?)?;
            Ok(Value::Choice { tag: *tag, part })
        }
        Value::Maybe(None) => Ok(Value::Maybe(None)),
        Value::Maybe(Some(item)) => {
            let item = Box::new(alloc, copy(item, alloc)?)?;
            Ok(Value::Maybe(Some(item)))
        }
        Value::Nothing => Ok(Value::Nothing),
    }
}

#[cycle(copy)]
fn copy_items(items: &Vec<Value>, alloc: Global) -> Result<Vec<Value>, NoMemory>
    ensures { IfOk result (λ v. map tree v.items ≡ map tree items.now.items) }
{
    let mut copies = Vec::with_capacity(alloc, items.len())?;
    for item in items {
        copies.push(copy(item, alloc)?)?;
    }
    Ok(copies)
}
