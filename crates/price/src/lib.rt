// The library above the port, which `price_c` exports to C: the priced parts list of a drawing, and the report on a range of drawings.
#![tactic(auto)]

pub mod range;

ghost use Rattle.std.specs.Prelude.{length};
ghost use Rattle.packing.specs.Packed.{Returns};
ghost use Rattle.catalogue.specs.Price.{price_call};

use packing::pack;

// The work room of a range: that of one drawing, which all of them have, one after the other.
pub const ROOM_PRICE_RANGE: usize = parts::ROOM_PRICE;

// How many edges are of each kind of the catalogue, how many loop buffers the choice asks for, and the exact total.
pub fn ohg_price(src: &[u8], out: &mut [u8], room: &mut [u8]) -> u64
    ensures { Returns (price_call src.now (length out.old) (length room.old)) result out.old out.new }
{
    pack(parts::price(src, out, room))
}
