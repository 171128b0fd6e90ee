//! Content as text.
ghost use Rattle.std.specs.Prelude.{◌≡◌, ◌≤◌, ◌++◌, [], ◌∷◌, OnOk, codes, flat_map, length, take};
ghost use Rattle.hex.specs.Hex.{encode_lower};
ghost use Rattle.xdr_show.specs.Line.{escaped, is_plain, quoted};

use hex::encode_to_slice;
use xdr_types::NoMemory;

// The digits of hexadecimal.
const DIGITS: &[u8; 16] = b"0123456789abcdef";

/// The bytes of a text between quotation marks.
pub fn push_quoted(out: &mut Vec<u8>, bytes: &[u8]) -> Result<(), NoMemory>
    ensures { OnOk result (out.new.items ≡ out.old.items ++ quoted bytes.now) }
{
    out.extend_from_slice(b"\"")?;
    push_escaped_bytes(out, bytes)?;
    out.extend_from_slice(b"\"")?;
    Ok(())
}

/// The bytes of a text, each that is not plain as `\x` and two lower-case hexadecimal digits. Plain are 0x20 to 0x7e
/// save the quotation mark and the backslash. An error is an allocation failure, and some of the text may then have
/// been added.
pub fn push_escaped_bytes(out: &mut Vec<u8>, bytes: &[u8]) -> Result<(), NoMemory>
    ensures { OnOk result (out.new.items ≡ out.old.items ++ flat_map escaped bytes.now) }
{
    let mut rest = bytes;
    loop {
        // Plain bytes that follow one another go in at once.
        let (plain, others) = rest.split_at(plain_count(rest));
        out.extend_from_slice(plain)?;
        match others {
            [] => return Ok(()),
            [byte, behind @ ..] => {
                push_escaped(out, *byte)?;
                rest = behind;
            }
        }
    }
}

// How many bytes at the front stand for themselves.
fn plain_count(bytes: &[u8]) -> usize
    ensures within { result ≤ length bytes.now }
    ensures plain { flat_map escaped (take result bytes.now) ≡ take result bytes.now }
{
    for (i, byte) in bytes.iter().enumerate() {
        if !is_plain(*byte) {
            return i;
        }
    }
    bytes.len()
}

// A byte of a text.
fn push_escaped(out: &mut Vec<u8>, byte: u8) -> Result<(), NoMemory>
    ensures { OnOk result (out.new.items ≡ out.old.items ++ escaped byte) }
{
    if is_plain(byte) {
        out.extend_from_slice(&[byte])?;
        Ok(())
    } else {
        out.extend_from_slice(b"\\x")?;
        push_pair(out, byte)
    }
}

// Whether a byte of a text stands for itself.
fn is_plain(byte: u8) -> bool
    ensures { result ≡ is_plain byte }
{
    byte >= 0x20 && byte <= 0x7e && byte != b'"' && byte != b'\\'
}

/// Bytes as hexadecimal.
pub fn push_hexadecimal(out: &mut Vec<u8>, bytes: &[u8]) -> Result<(), NoMemory>
    ensures { OnOk result (out.new.items ≡ out.old.items ++ (codes "0x" ++ encode_lower bytes.now)) }
{
    out.extend_from_slice(b"0x")?;
    push_pairs(out, bytes)
}

// Each byte as two digits of hexadecimal.
fn push_pairs(out: &mut Vec<u8>, bytes: &[u8]) -> Result<(), NoMemory>
    ensures { OnOk result (out.new.items ≡ out.old.items ++ encode_lower bytes.now) }
{
    let mut digits = [0u8; 64];
    let mut rest = bytes;
    while !rest.is_empty() {
        let (run, behind) = rest.split_at(rest.len().min(32));
        let pairs = &mut digits[..2 * run.len()];
        let Ok(()) = encode_to_slice(run, pairs) else {
            unreachable!();
        };
        out.extend_from_slice(pairs)?;
        rest = behind;
    }
    Ok(())
}

// A byte as two digits of hexadecimal.
#[tactic(auto, unfolding(hex::specs::Hex::encode_with))]
fn push_pair(out: &mut Vec<u8>, byte: u8) -> Result<(), NoMemory>
    ensures { OnOk result (out.new.items ≡ out.old.items ++ encode_lower (byte ∷ [])) }
{
    let high = DIGITS[(byte / 16) as usize];
    let low = DIGITS[(byte % 16) as usize];
    out.extend_from_slice(&[high, low])?;
    Ok(())
}
