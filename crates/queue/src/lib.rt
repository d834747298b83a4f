// The queue of keys in a lent room: a binary heap of numbers of 8 bytes, the largest at the top.
#![tactic(auto)]

ghost use Rattle.std.specs.Prelude.{◌≡◌, ◌⊎◌, ◌+◌, ◌*◌, ◌<◌, ◌≤◌, length};
ghost use Rattle.le.specs.Le.{words};
ghost use Rattle.queue.specs.Keys.{Heap};
ghost use Rattle.queue.specs.Places.{key_at, keys_in, placed, Larger, Sinks, Replaced, Rises, Added};

// A key is one number of three parts, score, id and arcs in: the last two are below this, and so their places follow.
pub const RADIX: u64 = 65536;

pub const SQUARE: u64 = RADIX * RADIX;

// Key i.
pub fn key_at(room: &[u8], base: usize, i: usize) -> u64
    requires { 4 * (base + 2 * (i + 1)) ≤ length room.now }
    ensures { result ≡ key_at (words room.now) base i }
{
    let x = base + 2 * i;
    let low = le::word(room, x) as u64;
    let high = le::word(room, x + 1) as u64;
    low + 4294967296 * high
}

// k as key i.
fn put_key(room: &mut [u8], base: usize, i: usize, k: u64)
    requires { 4 * (base + 2 * (i + 1)) ≤ length room.old }
    ensures { words room.new ≡ placed (words room.old) base i k }
{
    let x = base + 2 * i;
    le::set_word(room, x, (k % 4294967296) as u32);
    le::set_word(room, x + 1, (k / 4294967296) as u32);
}

// The key beside a left one of n, or the left one itself where it is the last.
fn beside(left: usize, n: usize) -> usize
    requires { left < n }
    ensures { (result < n) × ((result ≡ left) ⊎ (result ≡ left + 1)) × (left + 1 < n → result ≡ left + 1) }
{
    if left + 1 < n { left + 1 } else { left }
}

// A key, and which it is.
#[derive(Clone, Copy)]
pub struct Below {
    pub index: usize,
    pub key: u64,
}

// Of the one or two keys below key i, the larger. Index and key follow from one comparison, and the key is not looked up again, so that the compiler needs no branch.
fn larger_below(room: &[u8], base: usize, n: usize, i: usize) -> Below
    requires { (2 * i + 1 < n) × (4 * (base + 2 * n) ≤ length room.now) }
    ensures { Larger (keys_in (words room.now) base n) n i result.index × (result.key ≡ key_at (words room.now) base result.index) }
{
    let left = 2 * i + 1;
    let right = beside(left, n);
    let a = key_at(room, base, left);
    let b = key_at(room, base, right);
    if a < b {
        return Below {
            index: right,
            key: b,
        };
    }
    Below {
        index: left,
        key: a,
    }
}

// Makes a gap for k in place of the first of n keys and tells where: from the top down, each larger key below the gap that is above k moves up.
fn sift_down(room: &mut [u8], base: usize, n: usize, k: u64) -> usize
    requires n_nonzero { (0 < n) × (4 * (base + 2 * n) ≤ length room.old) }
    requires heap { Heap (keys_in (words room.old) base n) n }
    ensures { Sinks (words room.old) (words room.new) base n k result }
{
    let mut gap = 0;
    while 2 * gap + 1 < n {
        let child = larger_below(room, base, n, gap);
        if child.key <= k {
            return gap;
        }
        put_key(room, base, gap, child.key);
        gap = child.index;
    }
    gap
}

// k instead of the first of n keys.
pub fn sink(room: &mut [u8], base: usize, n: usize, k: u64)
    requires n_nonzero { (0 < n) × (4 * (base + 2 * n) ≤ length room.old) }
    requires heap { Heap (keys_in (words room.old) base n) n }
    ensures { Replaced (words room.old) (words room.new) base n k }
{
    let gap = sift_down(room, base, n, k);
    put_key(room, base, gap, k);
}

// Makes a gap for k at the end of n keys and tells where: each key on the way up that is below k moves down.
fn sift_up(room: &mut [u8], base: usize, n: usize, k: u64) -> usize
    requires n_in_bounds { 4 * (base + 2 * (n + 1)) ≤ length room.old }
    requires heap { Heap (keys_in (words room.old) base n) n }
    ensures { Rises (words room.old) (words room.new) base n k result }
{
    let mut gap = n;
    while 0 < gap {
        let parent = (gap - 1) / 2;
        let p = key_at(room, base, parent);
        if k <= p {
            return gap;
        }
        put_key(room, base, gap, p);
        gap = parent;
    }
    gap
}

// k besides n keys.
pub fn push(room: &mut [u8], base: usize, n: usize, k: u64)
    requires n_in_bounds { 4 * (base + 2 * (n + 1)) ≤ length room.old }
    requires heap { Heap (keys_in (words room.old) base n) n }
    ensures { Added (words room.old) (words room.new) base n k }
{
    let gap = sift_up(room, base, n, k);
    put_key(room, base, gap, k);
}
