// Distances: table DF.
ghost use Rattle.std.specs.Prelude.{◌≡◌};
ghost use Rattle.group.specs.Distance.{distance};
ghost use Rattle.abi.specs.Face.{returned, itself};

// The distance in decimetres of a figure in column BY, or -15.
#[unsafe(no_mangle)]
pub extern "C" fn atc2_distance(by: u8, figure: u8) -> i32
    ensures { result ≡ returned itself (distance by figure) }
{
    abi::distances::atc2_distance(by, figure)
}
