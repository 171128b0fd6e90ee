//! The version of the library.
ghost use Rattle.std.specs.Prelude.{◌≡◌};

/// The version of the library, 65536 times its first number, 256 times its second and its third: 256 of 0.1.0.
#[unsafe(no_mangle)]
pub extern "C" fn oncrpc_version() -> u32
    ensures { result ≡ 256 }
{
    256
}
