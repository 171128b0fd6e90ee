//! Limits on the depth and the bytes of a value.
//!
//! Each function calls the library, and its `ensures` is what the library's contract makes certain about the answer.
ghost use Rattle.std.specs.Prelude.{◌≡◌, true, false};

use xdr_types::Limits;

/// The greatest limits: depth 4096 and 16 MiB.
pub fn greatest() -> bool
    ensures { result ≡ true }
{
    Limits::new(4096, 16777216).is_some()
}

/// The least: depth 1 and one unit of four bytes.
pub fn least() -> bool
    ensures { result ≡ true }
{
    Limits::new(1, 4).is_some()
}

/// A depth of 4097 is more than may be asked for.
pub fn too_deep() -> bool
    ensures { result ≡ false }
{
    Limits::new(4097, 4).is_some()
}

/// A root has depth 1 already, so a depth of 0 would leave buffer for nothing.
pub fn no_depth() -> bool
    ensures { result ≡ false }
{
    Limits::new(0, 4).is_some()
}

/// One unit more than 16 MiB.
pub fn one_unit_too_many() -> bool
    ensures { result ≡ false }
{
    Limits::new(1, 16777220).is_some()
}

/// No bytes at all.
pub fn no_bytes() -> bool
    ensures { result ≡ false }
{
    Limits::new(1, 0).is_some()
}

/// Six bytes are no whole units.
pub fn no_whole_units() -> bool
    ensures { result ≡ false }
{
    Limits::new(1, 6).is_some()
}

/// Limits say the depth that they were made with.
pub fn depth_as_given() -> u32
    ensures { result ≡ 1 }
{
    match Limits::new(1, 8) {
        Some(limits) => limits.depth(),
        None => 0,
    }
}

/// They say the bytes too.
pub fn bytes_as_given() -> u32
    ensures { result ≡ 8 }
{
    match Limits::new(1, 8) {
        Some(limits) => limits.bytes(),
        None => 0,
    }
}
