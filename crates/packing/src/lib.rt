// What an exported function returns: code, a and b packed into one number.
#![tactic(auto)]

ghost use Rattle.std.specs.Prelude.{◌≡◌, ◌<◌, min};
ghost use Rattle.packing.specs.Packed as packed;
ghost use Rattle.packing.specs.Packed.{packed_outcome, Packs};

use form::{Done, Refusal};

// A refusal told by its number and place, as one number; a place that has more bits than there are for it is given as the highest number.
pub fn pack_refusal(no: u32, place: usize) -> u64
    requires { no < 256 }
    ensures { result ≡ packed.pack no 0 (min place 4294967295) }
{
    no as u64 + 4294967296 * (place.min(4294967295) as u64)
}

// What a call answered, as one number: code, a and b in 8, 24 and 32 bits. On a refusal b is its place; one that has more bits is given as the highest number.
pub fn pack(x: Result<Done, Refusal>) -> u64
    requires { Packs x }
    ensures { result ≡ packed_outcome x }
{
    match x {
        Ok(done) => 256 * (done.a as u64) + 4294967296 * (done.b as u64),
        Err(refusal) => pack_refusal(refusal.number(), refusal.place()),
    }
}
