// What C calls: the priced parts list of a drawing, and the report on a range of drawings, each under its name in `price`, with its contract.
#![tactic(auto)]

ghost use Rattle.std.specs.Prelude.{length};
ghost use Rattle.packing.specs.Packed.{Returns};
ghost use Rattle.catalogue.specs.Price.{price_call};
ghost use Rattle.catalogue.specs.Range.{price_range_call};

// How many edges are of each kind of the catalogue, how many loop buffers the choice asks for, and the exact total.
#[unsafe(no_mangle)]
pub extern "C" fn ohg_price(src: &[u8], out: &mut [u8], room: &mut [u8]) -> u64
    ensures { Returns (price_call src.now (length out.old) (length room.old)) result out.old out.new }
{
    price::ohg_price(src, out, room)
}

// How many drawings of a slice were priced and how many refused by each number, how many parts and loop buffers they have, the exact sum, the dearest and the mean.
#[unsafe(no_mangle)]
pub extern "C" fn ohg_price_range(src: &[u8], out: &mut [u8], room: &mut [u8]) -> u64
    ensures { Returns (price_range_call src.now (length out.old) (length room.old)) result out.old out.new }
{
    price::range::ohg_price_range(src, out, room)
}
