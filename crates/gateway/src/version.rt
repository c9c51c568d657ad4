// Which library a caller has linked.
ghost use Rattle.std.specs.Prelude.{◌≡◌};
ghost use Rattle.gateway.specs.Version.{version};

// The version as one number: two hexadecimal digits for each of its three parts.
#[unsafe(no_mangle)]
pub extern "C" fn gateway_version() -> u32
    ensures { result ≡ version }
{
    0x0000_0200
}
