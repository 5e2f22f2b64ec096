// Distances: table DF.
ghost use Rattle.std.specs.Prelude.{◌≡◌};
ghost use Rattle.group.specs.Distance.{distance};
ghost use Rattle.abi.specs.Face.{returned, itself};

// The distance in decimetres of a figure in column BY, or -15.
pub fn atc2_distance(by: u8, figure: u8) -> i32
    ensures { result ≡ returned itself (distance by figure) }
{
    match group::distance(by, figure) {
        Ok(d) => d as i32,
        Err(_) => -15,
    }
}
