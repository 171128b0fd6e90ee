//! The lines of a registry's rows.
ghost use Rattle.std.specs.Prelude.{◌≡◌, ◌++◌, OnOk};
ghost use Rattle.xdr_types.specs.View.{tree, values};
ghost use Rattle.oncrpc_service.specs.Private.Nodes.{field_text, item_line, list_lines, more_fields, node_lines};

use xdr_show::push_escaped_bytes;
use xdr_types::Value;
use xdr_units::{NoMemory, push_decimal};

/// The line of each row of a list, in order: the row's fields with a space between two of them.
#[cycle(push)]
pub fn push_rows(out: &mut Vec<u8>, list: &Value) -> Result<(), NoMemory>
    ensures { OnOk result (out.new.items ≡ out.old.items ++ list_lines (tree list.now).0 (tree list.now).1) }
{
    match list {
        Value::Maybe(Some(node)) => push_node(out, node),
        _ => Ok(()),
    }
}

// A row, and those that follow it.
#[cycle(push)]
fn push_node(out: &mut Vec<u8>, node: &Value) -> Result<(), NoMemory>
    ensures { OnOk result (out.new.items ≡ out.old.items ++ node_lines (tree node.now)) }
{
    match node {
        Value::Group(parts) => match parts.as_slice() {
            [row, next] => {
                push_row(out, row)?;
                push_rows(out, next)
            }
            _ => Ok(()),
        },
        _ => Ok(()),
    }
}

// The line of a row.
fn push_row(out: &mut Vec<u8>, row: &Value) -> Result<(), NoMemory>
    ensures { OnOk result (out.new.items ≡ out.old.items ++ item_line (tree row.now).0 (tree row.now).1) }
{
    match row {
        Value::Group(fields) => match fields.as_slice() {
            [first, others @ ..] => {
                push_field(out, first)?;
                push_more(out, others)
            }
            [] => Ok(out.extend_from_slice(b"\n")?),
        },
        _ => Ok(out.extend_from_slice(b"\n")?),
    }
}

// Fields after the first, each after a space, and the end of the line.
fn push_more(out: &mut Vec<u8>, fields: &[Value]) -> Result<(), NoMemory>
    ensures { OnOk result (out.new.items ≡ out.old.items ++ more_fields (values fields.now)) }
{
    for field in fields {
        out.extend_from_slice(b" ")?;
        push_field(out, field)?;
    }
    out.extend_from_slice(b"\n")?;
    Ok(())
}

// A number in decimal, or a text that is escaped.
fn push_field(out: &mut Vec<u8>, field: &Value) -> Result<(), NoMemory>
    ensures { OnOk result (out.new.items ≡ out.old.items ++ field_text (tree field.now).0) }
{
    match field {
        Value::Unsigned(number) => push_decimal(out, *number),
        Value::Bytes(text) => push_escaped_bytes(out, text),
        _ => Ok(()),
    }
}
