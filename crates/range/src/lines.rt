// The lines of the report, put into lent bytes one after the other. Each function answers the place after what it has put, and bounds it so that the next one has room.
ghost use Rattle.std.specs.Prelude.{◌++◌, ◌≡◌, ◌+◌, ◌*◌, ◌≤◌, length};
ghost use Rattle.graph.specs.Lists.{joined};
ghost use Rattle.io.specs.Counts.{IsPrefixLen};
ghost use Rattle.le.specs.Le.{Below};
ghost use Rattle.catalogue.specs.Range.{refusal_numbers};
ghost use Rattle.price.specs.Totals.{Upto};
ghost use Rattle.text.specs.Text.{Printed};
ghost use Rattle.range.specs.Glance.{head_line, refusal_line, sum_line, dearest_line, mean_line, range_room};
ghost use Rattle.range.specs.Lines.{front_text, back_text};

use amounts::{put_amount, put_buffers, put_kinds};
use price::range::{Mean, NO_DRAWING, Totals};
use text::{put_field, put_text};

// How many drawings there are, and how many were priced.
fn put_head(out: &mut [u8], drawings: u32, priced: u32) -> usize
    requires { 58 ≤ length out.old }
    ensures printed { Printed out.old 0 (head_line drawings priced) out.new result }
    ensures upper_bound { result ≤ 58 }
{
    let all = put_field(out, 0, b"drawings ", drawings as usize);
    let some = put_field(out, all, b" priced ", priced as usize);
    put_text(out, some, b"\n")
}

// How many were refused by a number, where it occurs.
fn put_refused(out: &mut [u8], at: usize, refusals: &[u32; 17], no: usize) -> usize
    requires { (1 ≤ no) × (no ≤ 17) × (length refusals.now ≡ 17) × Below 4294967296 refusals.now × (at + 54 ≤ length out.old) }
    ensures printed { Printed out.old at (refusal_line refusals.now no) out.new result }
    ensures upper_bound { result ≤ at + 54 }
{
    let count = refusals[no - 1] as usize;
    if count == 0 {
        return at;
    }
    let named = put_field(out, at, b"refused by ", no);
    let counted = put_field(out, named, b": ", count);
    put_text(out, counted, b"\n")
}

// A line for each number that occurs.
fn put_refusals(out: &mut [u8], at: usize, refusals: &[u32; 17]) -> usize
    requires { (length refusals.now ≡ 17) × Below 4294967296 refusals.now × (at + 17 * 54 ≤ length out.old) }
    ensures printed { Printed out.old at (joined (refusal_line refusals.now) refusal_numbers) out.new result }
    ensures upper_bound { result ≤ at + 17 * 54 }
{
    let mut next = at;
    for no in 1..=17 {
        next = put_refused(out, next, refusals, no);
    }
    next
}

// The sum.
fn put_sum(out: &mut [u8], at: usize, sum: u64) -> usize
    requires { at + 28 ≤ length out.old }
    ensures printed { Printed out.old at (sum_line sum) out.new result }
    ensures upper_bound { result ≤ at + 28 }
{
    let named = put_text(out, at, b"sum ");
    let costs = put_amount(out, named, sum);
    put_text(out, costs, b"\n")
}

// The dearest drawing, where there is one. The index is the report's, with its number for none: an `Option` would need a bound on the index, which nothing else asks for.
fn put_dearest(out: &mut [u8], at: usize, index: u32) -> usize
    requires { at + 29 ≤ length out.old }
    ensures printed { Printed out.old at (dearest_line index) out.new result }
    ensures upper_bound { result ≤ at + 29 }
{
    if index == NO_DRAWING {
        return at;
    }
    let named = put_field(out, at, b"dearest ", index as usize);
    put_text(out, named, b"\n")
}

// The mean.
fn put_mean(out: &mut [u8], at: usize, mean: Mean) -> usize
    requires { at + 60 ≤ length out.old }
    ensures printed { Printed out.old at (mean_line mean.whole mean.rest) out.new result }
    ensures upper_bound { result ≤ at + 60 }
{
    let named = put_text(out, at, b"mean ");
    let whole = put_amount(out, named, mean.whole);
    let rest = put_field(out, whole, b" remainder ", mean.rest as usize);
    put_text(out, rest, b"\n")
}

// The counts in front.
fn put_front(out: &mut [u8], t: Totals) -> usize
    requires { Upto 1000 t × (range_room ≤ length out.old) }
    ensures printed { Printed out.old 0 (front_text t) out.new result }
    ensures upper_bound { result ≤ 1729 }
{
    let head = put_head(out, t.drawings, t.priced);
    let refused = put_refusals(out, head, &t.refusals);
    let kinds = put_kinds(out, refused, &t.parts);
    put_buffers(out, kinds, t.buffers)
}

// The amounts behind them.
fn put_back(out: &mut [u8], at: usize, t: Totals) -> usize
    requires { Upto 1000 t × (at + 117 ≤ length out.old) }
    ensures printed { Printed out.old at (back_text t) out.new result }
    ensures upper_bound { result ≤ at + 117 }
{
    let summed = put_sum(out, at, t.sum);
    let named = put_dearest(out, summed, price::range::index_of(t.dearest));
    put_mean(out, named, price::range::mean_of(t.sum, t.priced))
}

// The whole report.
pub fn put_report(out: &mut [u8], t: Totals) -> usize
    requires { Upto 1000 t × (range_room ≤ length out.old) }
    ensures printed { Printed out.old 0 (front_text t ++ back_text t) out.new result }
    ensures prefix_len { IsPrefixLen result out.new }
{
    let front = put_front(out, t);
    put_back(out, front, t)
}
