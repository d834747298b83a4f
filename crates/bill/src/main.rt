// The bill of a drawing, for the cost desk. Reads a stored form of either version from standard input and prints its parts list: a line for each kind of the catalogue and
// one for the loop buffers, with how many there are and what they cost together, and the total; amounts in cents with two decimals. On a refusal it prints one line,
// `refused` and the number.
#![tactic(auto)]

mod lines;

ghost use Rattle.std.specs.Prelude.{◌≡◌, ◌≤◌, length};
ghost use Rattle.io.specs.Counts.{IsPrefixLen};
ghost use Rattle.catalogue.specs.Price.{room_price};
ghost use Rattle.text.specs.Text.{Printed};
ghost use Rattle.bill.specs.Bill.{bill_text, bill_room};

use lines::put_list;
use text::put_refusal;

// The bill of any bytes, at the front of out; answered is its length.
fn bill(src: &[u8], room: &mut [u8], out: &mut [u8]) -> usize
    requires { (room_price ≤ length room.old) × (bill_room ≤ length out.old) }
    ensures printed { Printed out.old 0 (bill_text src.now) out.new result }
    ensures prefix_len { IsPrefixLen result out.new }
{
    match parts::price_drawing(src, room) {
        Ok(list) => put_list(out, list),
        Err(refusal) => put_refusal(out, refusal),
    }
}

// A mebibyte of zeros. The `ensures` gives only the length, which lending the array as a slice needs.
fn mebibyte() -> [u8; 1048576]
    ensures { 1048576 ≡ length result }
{
    [0; 1048576]
}

// The work room of pricing, cleared.
fn room_buffer() -> [u8; parts::ROOM_PRICE]
    ensures { room_price ≡ length result }
{
    [0; parts::ROOM_PRICE]
}

// Reads, prices and writes. No contract can say which bytes are read or written, so all that is to be decided is decided in `bill`.
//
// The buffer is longer than the longest form, of 655,385 bytes. Where the input fills it, the rest is not read, and the bill is the one of the whole input
// (`bill_of_prefix`, proofs/Prefix).
//
// A read that fails is told on standard error, and then there is no bill: `refused 1` or `refused 5` would blame the drawing. A write that fails is told there too.
// Where nothing can be told there either, the program ends with the error of that.
fn main(rt: HostRuntime) -> std::io::Result<()> {
    let mut form = mebibyte();
    let Ok(n) = text::read_full(&mut rt.stdin(), &mut form) else {
        return rt.eprintln("bill: standard input can't be read");
    };
    let mut room = room_buffer();
    let mut out = io::large_buffer();
    let k = bill(&form[..n], &mut room, &mut out);
    if rt.write_all(&out[..k]).is_err() {
        return rt.eprintln("bill: standard output can't be written");
    }
    Ok(())
}
