// The version of the library for C.
ghost use Rattle.std.specs.Prelude.{◌≡◌};

/// The version: 65536 times the first part, 256 times the second, and the third. It is that of `include/vgfx.h`.
#[unsafe(no_mangle)]
pub extern "C" fn vgfx_version() -> u32
    ensures { result ≡ 768 }
{
    0x0000_0300
}
