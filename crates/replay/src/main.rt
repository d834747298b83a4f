// Replays a recorded list of the original's answers: makes each call of the list, compares the returned number and every byte of the answer buffers with
// what was recorded, and says how many calls differ. tests/differential/README.md says how the list is made and how it is laid out. That a call leaves its
// inputs as they were is not tried here: they are lent as `&`.
#![tactic(auto)]

mod calls;
mod list;

ghost use Rattle.std.specs.Prelude.{◌+◌, ◌<◌, ◌≤◌, ◌≡◌, true, cond, length};
ghost use Rattle.replay.specs.Due.{filled, Due};

use calls::returns_due;
use list::{LOST, Record, bytes_of, first_at, record_at};

// What every answer buffer is filled with before a call.
const FILL: u8 = 165;

// How many of the calls that differ are told one by one.
const TOLD: u64 = 10;

// How many calls were replayed, and how many of them differ.
#[derive(Clone, Copy)]
struct Tally {
    calls: u64,
    differ: u64,
}

impl Tally {
    // One call more, told by its number, from 1 on, where it is one of the first that differ.
    fn counted(self, agrees: bool, to: &impl Print) -> Self
        requires { (self.differ ≤ self.calls) × (self.calls < 18446744073709551615) }
        ensures { (result.differ ≡ self.differ + cond agrees 0 1) × (result.differ ≤ result.calls) × (result.calls ≡ self.calls + 1) }
    {
        let calls = self.calls + 1;
        let differ = self.differ;
        if agrees {
            return Tally { calls, differ };
        }
        if differ < TOLD {
            tell_call(calls, to);
        }
        Tally {
            calls,
            differ: differ + 1,
        }
    }
}

// A line that can't be written is left out: it changes no count, and `tell` will say that nothing more can be written.
fn tell_call(call: u64, to: &impl Print) {
    let _ = println!(to; "call {call} differs");
}

fn tell(tally: Tally, to: &impl Print) -> std::io::Result<()> {
    let calls = tally.calls;
    let differ = tally.differ;
    println!(to; "{calls} calls replayed, {differ} differ")
}

fn fill(buffer: &mut [u8])
    ensures { buffer.new ≡ filled (length buffer.old) }
{
    buffer.fill(FILL);
}

// Whether a call returns what is due and leaves what is due in its answer buffers, which are of the recorded lengths.
fn answers_due(
    list: &[u8],
    recorded: Record,
    out: &mut [u8],
    map: &mut [u8],
    room: &mut [u8],
) -> bool
    ensures { result ≡ true → Due list.now recorded }
{
    let answers = recorded.answers;
    fill(out);
    fill(map);
    if !returns_due(list, recorded, out, map, room) {
        return false;
    }
    if !check::same(out, bytes_of(list, answers.one)) {
        return false;
    }
    check::same(map, bytes_of(list, answers.two))
}

// The first n bytes of a buffer, or all of it where it has fewer.
fn front(buffer: &mut [u8], n: usize) -> &mut [u8] {
    if n <= buffer.len() {
        return &mut buffer[0..n];
    }
    buffer
}

// Whether a recorded call agrees. A record that is broken does not, nor one that asks for longer buffers than these.
fn agrees(list: &[u8], recorded: Record, out: &mut [u8], map: &mut [u8], room: &mut [u8]) -> bool
    ensures { result ≡ true → Due list.now recorded }
{
    if recorded.next == LOST {
        return false;
    }
    let answers = recorded.answers;
    let n = bytes_of(list, answers.one).len();
    let m = bytes_of(list, answers.two).len();
    answers_due(list, recorded, front(out, n), front(map, m), room)
}

// Replays the list to its end, or to where it is broken: what is broken counts as one call that differs.
fn replay(list: &[u8], out: &mut [u8], map: &mut [u8], room: &mut [u8], to: &impl Print) -> Tally {
    let mut tally = Tally {
        calls: 0,
        differ: 0,
    };
    let mut at = first_at(list);
    if at == LOST {
        return tally.counted(false, to);
    }
    while at < list.len() {
        let record = record_at(list, at);
        let next = record.next;
        tally = tally.counted(agrees(list, record, out, map, room), to);
        at = next;
    }
    tally
}

// A mebibyte of zeros. The `ensures` gives only the length, which lending the array as a slice needs.
fn mebibyte() -> [u8; 1048576]
    ensures { 1048576 ≡ length result }
{
    [0; 1048576]
}

// More zeros than any call needs as work room.
fn room_buffer() -> [u8; 1441792]
    ensures { 1441792 ≡ length result }
{
    [0; 1441792]
}

// More zeros than the longest form has bytes.
fn form_buffer() -> [u8; 720896]
    ensures { 720896 ≡ length result }
{
    [0; 720896]
}

// As many zeros as the largest map of nodes has bytes, twice over.
fn map_buffer() -> [u8; 131072]
    ensures { 131072 ≡ length result }
{
    [0; 131072]
}

// Reads, replays and tells. A read that fails ends it with the error, since the calls that were read are not all of the list.
fn main(rt: HostRuntime) -> std::io::Result<()> {
    let mut list = mebibyte();
    let n = text::read_full(&mut rt.stdin(), &mut list)?;
    let mut out = form_buffer();
    let mut map = map_buffer();
    let mut room = room_buffer();
    let tally = replay(&list[..n], &mut out, &mut map, &mut room, &rt);
    tell(tally, &rt)
}
