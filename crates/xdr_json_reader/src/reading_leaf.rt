//! Nodes without parts: numbers and flags (RFC 4506 sections 4.1, 4.2, 4.4, 4.5).
ghost use Rattle.std.specs.Prelude.{◌≡◌, ◌^◌, true, Bool, IfOk, IfErr};
ghost use Rattle.xdr_types.specs.Kinds.{int, unsigned, hyper, unsigned_hyper, boolean};
ghost use Rattle.xdr_types.specs.Fits.{is_signed};
ghost use Rattle.xdr_json.specs.Spelled.{is_flag};
ghost use Rattle.xdr_json_reader.specs.Private.Look.{seen};
ghost use Rattle.xdr_json_reader.specs.Private.Leaves.{LeafRead};
ghost use Rattle.xdr_json_reader.specs.declared.fault.JsonReason.TheVariants.{WrongType};

use crate::fault::JsonReason;
use crate::reading_bytes::{put_flag, put_hyper, put_int, put_unsigned, put_unsigned_hyper};
use crate::reading_look::Shape;
use crate::reading_number::{hyper_number, int_number, unsigned_hyper_number, unsigned_number};

// Each i64 is a hyper.
fn every_i64_is_hyper(n: i64)
    ensures { is_signed (2 ^ 63) n ≡ true }
{
    let _number = n;
}

/// Reads an int.
pub fn read_int(json: Shape<'_, '_>, out: &mut Vec<u8>) -> Result<(), JsonReason>
    ensures { LeafRead int (seen json.entry) out.old.items out.new.items result }
{
    match int_number(json) {
        Ok(number) => match put_int(out, number) {
            Ok(()) => Ok(()),
            Err(_) => Err(JsonReason::NoMemory),
        },
        Err(why) => Err(why),
    }
}

/// Reads an unsigned int.
pub fn read_unsigned(json: Shape<'_, '_>, out: &mut Vec<u8>) -> Result<(), JsonReason>
    ensures { LeafRead unsigned (seen json.entry) out.old.items out.new.items result }
{
    match unsigned_number(json) {
        Ok(number) => match put_unsigned(out, number) {
            Ok(()) => Ok(()),
            Err(_) => Err(JsonReason::NoMemory),
        },
        Err(why) => Err(why),
    }
}

/// Reads a hyper.
pub fn read_hyper(json: Shape<'_, '_>, out: &mut Vec<u8>) -> Result<(), JsonReason>
    ensures { LeafRead hyper (seen json.entry) out.old.items out.new.items result }
{
    match hyper_number(json) {
        Ok(number) => {
            every_i64_is_hyper(number);
            match put_hyper(out, number) {
                Ok(()) => Ok(()),
                Err(_) => Err(JsonReason::NoMemory),
            }
        }
        Err(why) => Err(why),
    }
}

/// Reads an unsigned hyper.
pub fn read_unsigned_hyper(json: Shape<'_, '_>, out: &mut Vec<u8>) -> Result<(), JsonReason>
    ensures { LeafRead unsigned_hyper (seen json.entry) out.old.items out.new.items result }
{
    match unsigned_hyper_number(json) {
        Ok(number) => match put_unsigned_hyper(out, number) {
            Ok(()) => Ok(()),
            Err(_) => Err(JsonReason::NoMemory),
        },
        Err(why) => Err(why),
    }
}

/// A flag.
pub fn flag(json: Shape<'_, '_>) -> Result<bool, JsonReason>
    ensures found { IfOk result (λ b. is_flag b (seen json.entry) ≡ true) }
    ensures none { IfErr result (λ _. (b : Bool) → is_flag b (seen json.entry) ≡ true → ⊥) }
    ensures why { IfErr result (λ w. w ≡ WrongType) }
{
    match json {
        Shape::Flag(flag) => Ok(flag),
        _ => Err(JsonReason::WrongType),
    }
}

/// Reads a boolean.
pub fn read_bool(json: Shape<'_, '_>, out: &mut Vec<u8>) -> Result<(), JsonReason>
    ensures { LeafRead boolean (seen json.entry) out.old.items out.new.items result }
{
    match flag(json) {
        Ok(flag) => match put_flag(out, flag) {
            Ok(()) => Ok(()),
            Err(_) => Err(JsonReason::NoMemory),
        },
        Err(why) => Err(why),
    }
}
