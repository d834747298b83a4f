// The range at one glance, for the cost desk. Reads a slice of drawings from standard input, each stored form with its length before it, and prints the report: how many there are and
// were priced, how many refused by each number that occurs, a line for each kind of the catalogue and one for the loop buffers, the sum, the dearest and the mean; amounts in cents with two
// decimals. On a refusal of the slice it prints one line, `refused` and the number.
#![tactic(auto)]

mod lines;

ghost use Rattle.std.specs.Prelude.{◌≡◌, ◌≤◌, length};
ghost use Rattle.io.specs.Counts.{IsPrefixLen};
ghost use Rattle.catalogue.specs.Price.{room_price};
ghost use Rattle.text.specs.Text.{Printed};
ghost use Rattle.range.specs.Glance.{range_text, range_room};

use lines::put_report;
use text::put_refusal;

// The report on any bytes, at the front of out; answered is its length.
fn glance(src: &[u8], room: &mut [u8], out: &mut [u8]) -> usize
    requires { (room_price ≤ length room.old) × (range_room ≤ length out.old) }
    ensures printed { Printed out.old 0 (range_text src.now) out.new result }
    ensures prefix_len { IsPrefixLen result out.new }
{
    match price::range::price_slice(src, room) {
        Ok(totals) => put_report(out, totals),
        Err(refusal) => put_refusal(out, refusal),
    }
}

// Four mebibytes of zeros. The `ensures` gives only the length, which lending the array as a slice needs.
fn four_mebibytes() -> [u8; 4194304]
    ensures { 4194304 ≡ length result }
{
    [0; 4194304]
}

// The work room of pricing, cleared.
fn room_buffer() -> [u8; price::ROOM_PRICE_RANGE]
    ensures { room_price ≡ length result }
{
    [0; price::ROOM_PRICE_RANGE]
}

// Reads, prices and writes. No contract can say which bytes are read or written, so all that is to be decided is decided in `glance`.
//
// A slice that is longer than the buffer is told on standard error, and so is a read that fails; then there is no report: one on a part of the slice would be another. A write that fails is told there too.
// Where nothing can be told there either, the program ends with the error of that.
fn main(rt: HostRuntime) -> std::io::Result<()> {
    let mut slice = four_mebibytes();
    let mut input = rt.stdin();
    let Ok(n) = text::read_full(&mut input, &mut slice) else {
        return rt.eprintln("range: standard input can't be read");
    };
    if n == slice.len() {
        let Ok(ended) = text::is_ended(&mut input) else {
            return rt.eprintln("range: standard input can't be read");
        };
        if !ended {
            return rt.eprintln("range: standard input is longer than 4 MiB");
        }
    }
    let mut room = room_buffer();
    let mut out = io::large_buffer();
    let k = glance(&slice[..n], &mut room, &mut out);
    if rt.write_all(&out[..k]).is_err() {
        return rt.eprintln("range: standard output can't be written");
    }
    Ok(())
}
