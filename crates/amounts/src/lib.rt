// What the cost desk's programs share: amounts in cents, and the lines of the kinds and of the loop buffers, put into lent bytes one after the other. Each function answers the place
// after what it has put, and bounds it so that the next one has room: a name takes at most 12 bytes, an amount 23, and what follows a name 46.
#![tactic(auto)]

ghost use Rattle.std.specs.Prelude.{◌++◌, ◌+◌, ◌*◌, ◌≤◌, ◌<◌, length};
ghost use Rattle.graph.specs.Lists.{joined};
ghost use Rattle.parts.specs.Parts.{InCatalogue};
ghost use Rattle.catalogue.specs.Price.{kinds, kind_of};
ghost use Rattle.text.specs.Text.{ascii, Printed};
ghost use Rattle.amounts.specs.Amounts.{amount, rest, Counters, kind_line, buffers_line};

use text::{put_field, put_number, put_text};

// An amount in cents, of hundredths.
pub fn put_amount(out: &mut [u8], at: usize, n: u64) -> usize
    requires { at + 23 ≤ length out.old }
    ensures printed { Printed out.old at (amount n) out.new result }
    ensures upper_bound { result ≤ at + 23 }
{
    let whole = put_number(out, at, (n / 100) as usize);
    let dot = put_text(out, whole, b".");
    let decimals = [b'0' + (n % 100 / 10) as u8, b'0' + (n % 10) as u8];
    put_text(out, dot, &decimals)
}

// What follows a name: how many, and what they cost together.
fn put_rest(out: &mut [u8], at: usize, count: usize, cost: u64) -> usize
    requires { at + 46 ≤ length out.old }
    ensures printed { Printed out.old at (rest count cost) out.new result }
    ensures upper_bound { result ≤ at + 46 }
{
    let counted = put_field(out, at, b" ", count);
    let space = put_text(out, counted, b" ");
    let costs = put_amount(out, space, cost);
    put_text(out, costs, b"\n")
}

// The names of the kinds 1 to 12.
const NAMES: [&str; 12] = [
    "receive",
    "transmit",
    "parser",
    "hash",
    "server table",
    "pick",
    "rewriter",
    "probe",
    "counter",
    "splitter",
    "joiner",
    "flow store",
];

// The name of a kind.
fn put_name(out: &mut [u8], at: usize, label: usize) -> usize
    requires { InCatalogue label × (at + 12 ≤ length out.old) }
    ensures printed { Printed out.old at (ascii (kind_of label).name) out.new result }
    ensures upper_bound { result ≤ at + 12 }
{
    put_text(out, at, NAMES[label - 1].as_bytes())
}

// The line of a kind.
fn put_kind(out: &mut [u8], at: usize, counts: &[u32; 12], label: usize) -> usize
    requires { InCatalogue label × Counters counts.now × (at + 58 ≤ length out.old) }
    ensures printed { Printed out.old at (kind_line counts.now label) out.new result }
    ensures upper_bound { result ≤ at + 58 }
{
    let named = put_name(out, at, label);
    let count = counts[label - 1] as usize;
    put_rest(
        out,
        named,
        count,
        count as u64 * parts::kind_row(label).price,
    )
}

// A line for each kind.
pub fn put_kinds(out: &mut [u8], at: usize, counts: &[u32; 12]) -> usize
    requires { Counters counts.now × (at + 12 * 58 ≤ length out.old) }
    ensures printed { Printed out.old at (joined (kind_line counts.now) kinds) out.new result }
    ensures upper_bound { result ≤ at + 12 * 58 }
{
    let mut next = at;
    for label in 1..=12 {
        next = put_kind(out, next, counts, label);
    }
    next
}

// The line of the loop buffers.
pub fn put_buffers(out: &mut [u8], at: usize, buffers: u32) -> usize
    requires { at + 57 ≤ length out.old }
    ensures printed { Printed out.old at (buffers_line buffers) out.new result }
    ensures upper_bound { result ≤ at + 57 }
{
    let named = put_text(out, at, b"loop buffer");
    put_rest(
        out,
        named,
        buffers as usize,
        parts::BUFFER_PRICE * buffers as u64,
    )
}
