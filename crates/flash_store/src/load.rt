// The draws of the test load for programs in C.
ghost use Rattle.std.specs.Prelude.{◌≡◌};
ghost use Rattle.test_load.specs.Draws.{drawn};

// The draw after another, the first after the seed.
#[unsafe(no_mangle)]
pub extern "C" fn test_load_draw(last: u32) -> u32
    ensures { result ≡ drawn last }
{
    test_load::draw(last)
}
