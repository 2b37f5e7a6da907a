// The library's version.

ghost use Rattle.std.specs.Prelude.{◌≡◌};
ghost use Rattle.interface.specs.Version.{version};

const MAJOR: u64 = 0;

const MINOR: u64 = 8;

const PATCH: u64 = 0;

const VERSION: u64 = MAJOR * 10_000 + MINOR * 100 + PATCH;

#[unsafe(no_mangle)]
pub extern "C" fn claimtotals_version() -> u64
    ensures { result ≡ version }
{
    VERSION
}
