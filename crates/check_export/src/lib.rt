// The check under a name that a program in Rust can link: for the benchmark only.
#![tactic(auto)]

ghost use Rattle.std.specs.Prelude.{◌≡◌};
ghost use Rattle.cells.specs.Cells.{bytes_of};
ghost use Rattle.house_check.specs.Check.{check};

// The check of the bytes of some cells.
#[unsafe(no_mangle)]
pub extern "C" fn poplar_check(cells: &[u16]) -> u16
    ensures { result ≡ check (bytes_of cells.now) }
{
    house_check::check_of(cells)
}
