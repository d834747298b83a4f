// The report on a drawing. Reads a stored form of version 1 from standard input and prints its mark and version, its sizes, how many nodes are cut and how many vertices
// were removed freely, and then the cut ids, one a line. On a refusal it prints one line, `refused` and the number.
#![tactic(auto)]

mod lines;

ghost use Rattle.std.specs.Prelude.{◌≡◌, ◌≤◌, length};
ghost use Rattle.choice.specs.Calls.{room_cycle_breaking_nodes};
ghost use Rattle.io.specs.Counts.{IsPrefixLen};
ghost use Rattle.report.specs.Report.{report_text, report_room, list_room};
ghost use Rattle.text.specs.Text.{Printed};

use lines::put_drawing;
use text::put_refusal;

// The work room of the choice, cleared. The `ensures` gives only the length, which lending the array as a slice needs.
fn room_buffer() -> [u8; cycle::ROOM_CYCLE_BREAKING_NODES]
    ensures { room_cycle_breaking_nodes ≡ length result }
{
    [0; cycle::ROOM_CYCLE_BREAKING_NODES]
}

// The report on any bytes, at the front of out; answered is its length.
fn report(src: &[u8], list: &mut [u8], room: &mut [u8], out: &mut [u8]) -> usize
    requires { (list_room ≤ length list.old) × (room_cycle_breaking_nodes ≤ length room.old) × (report_room ≤ length out.old) }
    ensures printed { Printed out.old 0 (report_text src.now) out.new result }
    ensures prefix_len { IsPrefixLen result out.new }
{
    let z = match read::read_as(src, form::form1()) {
        Ok(z) => z,
        Err(refusal) => return put_refusal(out, refusal),
    };
    match cycle::cycle_breaking_nodes(src, list, room) {
        Ok(done) => put_drawing(out, z, list, done.a, done.b),
        Err(refusal) => put_refusal(out, refusal),
    }
}

// Reads, reports and writes. No contract can say which bytes are read or written, so all that is to be decided is decided in `report`.
//
// The buffer is longer than the longest form of version 1, of 49,167 bytes. Where the input fills it, the rest is not read, and the report is the one on the whole input
// (`report_of_prefix`, proofs/Prefix): the header, the labels and the edges that the limits allow lie in front, so whatever refuses the front on the way refuses
// the whole with the same number; and where nothing does, both are too long, which is 5.
//
// A read that fails is told on standard error, and then there is no report: `refused 1` or `refused 5` would blame the drawing. A write that fails is told there too.
// Where nothing can be told there either, the program ends with the error of that.
fn main(rt: HostRuntime) -> std::io::Result<()> {
    let mut form = io::large_buffer();
    let Ok(n) = text::read_full(&mut rt.stdin(), &mut form) else {
        return rt.eprintln("report: standard input can't be read");
    };
    let mut list = io::large_buffer();
    let mut room = room_buffer();
    let mut out = io::large_buffer();
    let k = report(&form[..n], &mut list, &mut room, &mut out);
    if rt.write_all(&out[..k]).is_err() {
        return rt.eprintln("report: standard output can't be written");
    }
    Ok(())
}
