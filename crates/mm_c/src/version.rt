// Which header goes with the library.
ghost use Rattle.std.specs.Prelude.{◌≡◌};

const VERSION: u32 = 1;

/// The version of what C sees, which is `MM_ABI` in a header that goes with it.
#[unsafe(no_mangle)]
pub extern "C" fn mm_abi() -> u32
    ensures { result ≡ 1 }
{
    VERSION
}
