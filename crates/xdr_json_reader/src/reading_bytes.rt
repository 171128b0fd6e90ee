//! Units of XDR behind bytes (RFC 4506 sections 3 and 4).
ghost use Rattle.std.specs.Prelude.{◌≡◌, ◌++◌, ◌<◌, ◌^◌, ◌≤ℤ◌, pos, negsuc, length, OnOk};
ghost use Rattle.xdr_units.specs.Numbers.{num4, num8, number_of, padded};

use byteorder::{BigEndian, ByteOrder};
use xdr_types::NoMemory;
use xdr_units::push_padded;

/// Writes an int.
pub fn put_int(out: &mut Vec<u8>, number: i32) -> Result<(), NoMemory>
    ensures { OnOk result (out.new.items ≡ out.old.items ++ num4 number) }
{
    let mut unit = [0; 4];
    BigEndian::write_i32(&mut unit, number);
    out.extend_from_slice(&unit)?;
    Ok(())
}

/// Writes an unsigned int.
pub fn put_unsigned(out: &mut Vec<u8>, number: u32) -> Result<(), NoMemory>
    ensures { OnOk result (out.new.items ≡ out.old.items ++ num4 (pos number)) }
{
    let mut unit = [0; 4];
    BigEndian::write_u32(&mut unit, number);
    out.extend_from_slice(&unit)?;
    Ok(())
}

/// Writes a hyper.
pub fn put_hyper(out: &mut Vec<u8>, number: i64) -> Result<(), NoMemory>
    ensures { OnOk result (out.new.items ≡ out.old.items ++ num8 number) }
{
    let mut units = [0; 8];
    BigEndian::write_i64(&mut units, number);
    out.extend_from_slice(&units)?;
    Ok(())
}

/// Writes an unsigned hyper.
pub fn put_unsigned_hyper(out: &mut Vec<u8>, number: u64) -> Result<(), NoMemory>
    ensures { OnOk result (out.new.items ≡ out.old.items ++ num8 (pos number)) }
{
    let mut units = [0; 8];
    BigEndian::write_u64(&mut units, number);
    out.extend_from_slice(&units)?;
    Ok(())
}

/// Writes a boolean.
pub fn put_flag(out: &mut Vec<u8>, flag: bool) -> Result<(), NoMemory>
    ensures { OnOk result (out.new.items ≡ out.old.items ++ num4 (number_of flag)) }
{
    if flag {
        put_unsigned(out, 1)
    } else {
        put_unsigned(out, 0)
    }
}

/// Writes a discriminant.
pub fn put_tag(out: &mut Vec<u8>, tag: i64) -> Result<(), NoMemory>
    requires low { negsuc 2147483647 ≤ℤ tag }
    requires high { tag ≤ℤ pos 4294967295 }
    ensures { OnOk result (out.new.items ≡ out.old.items ++ num4 tag) }
{
    if tag < 0 {
        put_int(out, tag as i32)
    } else {
        put_unsigned(out, tag as u32)
    }
}

/// Writes content after its length.
pub fn put_counted(out: &mut Vec<u8>, bytes: &[u8]) -> Result<(), NoMemory>
    requires { length bytes.now < 2 ^ 32 }
    ensures { OnOk result (out.new.items ≡ out.old.items ++ (num4 (pos (length bytes.now)) ++ padded bytes.now)) }
{
    put_unsigned(out, bytes.len() as u32)?;
    push_padded(out, bytes)?;
    Ok(())
}
