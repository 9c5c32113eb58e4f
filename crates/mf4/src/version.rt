// The version of the library, so that a program can compare it with that of its header.
ghost use Rattle.std.specs.Prelude.{◌≡◌};
ghost use Rattle.mf4.specs.Version.{version};

const MAJOR: u32 = 0;

const MINOR: u32 = 6;

const PATCH: u32 = 1;

#[unsafe(no_mangle)]
pub extern "C" fn mf4_version() -> u32
    ensures { result ≡ version }
{
    MAJOR * 10000 + MINOR * 100 + PATCH
}
