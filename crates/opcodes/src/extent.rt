// The extent of an object: its size rounded up to eight.
ghost use Rattle.std.specs.Prelude.{◌≡◌};
ghost use Rattle.opcodes.specs.View.{extent};

pub fn extent_of(size: u32) -> usize
    ensures { result ≡ extent size }
{
    (size as usize).next_multiple_of(8)
}
