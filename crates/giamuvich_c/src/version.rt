// The exports of giamuvich's functions in version.rt.
ghost use Rattle.std.specs.Prelude.{◌≡◌};
ghost use Rattle.giamuvich.specs.Version.{version_of};

// The version of the archive that is linked.
#[unsafe(no_mangle)]
pub extern "C" fn gmv_version() -> u64
    ensures { result ≡ version_of 3 0 0 }
{
    giamuvich::gmv_version()
}
