// The recorded list taken apart. The list may be broken anywhere, so each place is tested where it is used: past the end nothing is read, and whatever is
// read from there on leads past the end again.
ghost use Rattle.std.specs.Prelude.{◌<◌, ◌≤◌, ◌≡◌, length};
ghost use Rattle.replay.specs.Due.{part_of};

// A place past the end of every list.
pub const LOST: usize = 18446744073709551615;

// Recorded in place of the work room's length where the function takes none.
pub const NO_ROOM: u32 = 4294967295;

// The bytes of the list from one place up to another.
#[derive(Clone, Copy)]
pub struct Part {
    pub from: usize,
    pub to: usize,
}

// The numbers of a call, and the place after them. Those that it does not take are 0.
#[derive(Clone, Copy)]
pub struct Numbers {
    pub count: u8,
    pub one: u32,
    pub two: u32,
    pub next: usize,
}

// The input slices of a call, or what its answer buffers must hold afterwards, and the place after them. Those that it does not take are empty.
#[derive(Clone, Copy)]
pub struct Parts {
    pub count: u8,
    pub one: Part,
    pub two: Part,
    pub three: Part,
    pub next: usize,
}

// A recorded call, and the place of the next one.
#[derive(Clone, Copy)]
pub struct Record {
    pub operation: u8,
    // How many numbers, input slices and answer buffers it takes: a decimal digit for each, in this order.
    pub shape: usize,
    pub numbers: Numbers,
    pub inputs: Parts,
    pub answers: Parts,
    pub room: u32,
    pub due: u64,
    pub next: usize,
}

// The place n bytes on, lost where the list has not so many.
fn on(list: &[u8], at: usize, n: usize) -> usize
    ensures { at ≤ result }
{
    if at <= list.len() {
        if n <= list.len() - at {
            return at + n;
        }
    }
    LOST
}

// The byte at a place, and 0 past the end.
fn byte_at(list: &[u8], at: usize) -> u8 {
    if at < list.len() { list[at] } else { 0 }
}

// The 4-byte number at a place, and 0 where it is not wholly there.
fn number_at(list: &[u8], at: usize) -> u32 {
    if 4 <= list.len() {
        if at <= list.len() - 4 {
            return le::get4(list, at);
        }
    }
    0
}

// The 8-byte number at a place.
fn long_at(list: &[u8], at: usize) -> u64 {
    let low = number_at(list, at) as u64;
    let high = number_at(list, on(list, at, 4)) as u64;
    low + 4294967296 * high
}

// The numbers whose count stands at a place.
fn numbers_at(list: &[u8], at: usize) -> Numbers
    ensures { at ≤ result.next }
{
    let count = byte_at(list, at);
    let first = on(list, at, 1);
    let second = on(list, first, 4);
    let one = if 0 < count { number_at(list, first) } else { 0 };
    let two = if 1 < count {
        number_at(list, second)
    } else {
        0
    };
    let next = match count {
        0 => first,
        1 => second,
        2 => on(list, second, 4),
        _ => LOST,
    };
    Numbers {
        count,
        one,
        two,
        next,
    }
}

// The part whose length stands at a place; an empty one where there is none to be read.
fn part_at(list: &[u8], at: usize, is_there: bool) -> Part
    ensures { at ≤ result.to }
{
    if is_there {
        let from = on(list, at, 4);
        let to = on(list, from, number_at(list, at) as usize);
        Part { from, to }
    } else {
        Part { from: at, to: at }
    }
}

// The parts whose count stands at a place.
fn parts_at(list: &[u8], at: usize) -> Parts
    ensures { at ≤ result.next }
{
    let count = byte_at(list, at);
    let one = part_at(list, on(list, at, 1), 0 < count);
    let two = part_at(list, one.to, 1 < count);
    let three = part_at(list, two.to, 2 < count);
    let next = if count <= 3 { three.to } else { LOST };
    Parts {
        count,
        one,
        two,
        three,
        next,
    }
}

// The call recorded at a place. That the next one stands further on makes the replay end.
pub fn record_at(list: &[u8], at: usize) -> Record
    requires { at < length list.now }
    ensures { at < result.next }
{
    let operation = list[at];
    let numbers = numbers_at(list, at + 1);
    let inputs = parts_at(list, numbers.next);
    let answers = parts_at(list, inputs.next);
    let shape = 100 * (numbers.count as usize)
        + 10 * (inputs.count as usize)
        + (answers.count as usize);
    let room = number_at(list, answers.next);
    let last = on(list, answers.next, 4);
    let due = long_at(list, last);
    let next = on(list, last, 8);
    Record {
        operation,
        shape,
        numbers,
        inputs,
        answers,
        room,
        due,
        next,
    }
}

// The bytes of a part, and none where it does not lie in the list.
pub fn bytes_of(list: &[u8], part: Part) -> &[u8]
    ensures { result.now ≡ part_of list.now part.from part.to }
{
    let from = part.from;
    let to = part.to;
    if to < from {
        return &list[..0];
    }
    if list.len() < to {
        return &list[..0];
    }
    &list[from..to]
}

// The place of the first call, lost where the list does not begin with `OHGLIST1`.
pub fn first_at(list: &[u8]) -> usize {
    if check::same(bytes_of(list, Part { from: 0, to: 8 }), b"OHGLIST1") {
        8
    } else {
        LOST
    }
}
