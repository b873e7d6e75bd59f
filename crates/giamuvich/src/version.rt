// The version of the library. CONTRIBUTING.md says what else has it.
ghost use Rattle.std.specs.Prelude.{◌≡◌};
ghost use Rattle.giamuvich.specs.Version.{version_of};

pub const VERSION_MAJOR: u64 = 3;

pub const VERSION_MINOR: u64 = 0;

pub const VERSION_PATCH: u64 = 0;

// The version of the archive that is linked.
pub fn gmv_version() -> u64
    ensures { result ≡ version_of 3 0 0 }
{
    VERSION_MAJOR * 1000000 + VERSION_MINOR * 1000 + VERSION_PATCH
}
