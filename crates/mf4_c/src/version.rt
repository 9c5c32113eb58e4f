// The version of the library, so that a program can compare it with that of its header.
ghost use Rattle.std.specs.Prelude.{◌≡◌};
ghost use Rattle.mf4.specs.Version.{version};

#[unsafe(no_mangle)]
pub extern "C" fn mf4_version() -> u32
    ensures { result ≡ version }
{
    mf4::mf4_version()
}
