// A range of drawings in one slice, each stored form with its length before it: every drawing is priced where it stands, in one work room, and the report has the totals.
ghost use Rattle.std.specs.Prelude.{◌++◌, map, ◌≡◌, ◌≤◌, length, drop};
ghost use Rattle.std.proofs.lemmas.List.Edits.{sets};
ghost use Rattle.le.specs.Le.{Below};
ghost use Rattle.graph.specs.Answer.{answered};
ghost use Rattle.graph.specs.Calls.{in_work_room};
ghost use Rattle.form.specs.Form.{told, tested, Gives};
ghost use Rattle.packing.specs.Packed.{Returns};
ghost use Rattle.catalogue.specs.Price as spec;
ghost use Rattle.catalogue.specs.Price.{room_price};
ghost use Rattle.catalogue.specs.Range.{first_length, drawings_in, most_drawings, dearer, index_of, price_range_call};
ghost use Rattle.price.specs.Totals.{forms_of, dearest_in, dearest_meant, totals_of, sums, refused_once, priced_once, added, Listed, Upto, mean_of, front_of, amounts_of, nothing, ranging};

use form::{Done, Refusal};
use packing::pack;
use parts::{Bill, price_drawing, put_row, put8};

// The most drawings of a slice.
pub const MOST_DRAWINGS: usize = 1000;

// The bytes of the report.
pub const RANGE_BYTES: usize = 148;

// The index where there is no dearest drawing.
pub const NO_DRAWING: u32 = 4294967295;

// The dearest of some drawings: its index and what it costs.
#[derive(Clone, Copy)]
pub struct Dearest {
    pub index: u32,
    pub total: u64,
}

// The totals of the drawings so far.
#[derive(Clone, Copy)]
pub struct Totals {
    pub drawings: u32,
    pub priced: u32,
    pub refusals: [u32; 17],
    pub parts: [u32; 12],
    pub buffers: u32,
    pub sum: u64,
    pub dearest: Option<Dearest>,
}

// A mean: whole part and remainder.
#[derive(Clone, Copy)]
pub struct Mean {
    pub whole: u64,
    pub rest: u32,
}

// How long the drawing is whose length stands at `at`: 17 where the length is cut short or runs past the input.
fn drawing_length(src: &[u8], at: usize) -> Result<usize, Refusal>
    requires { at ≤ length src.now }
    ensures { told result ≡ first_length (drop at src.now) }
{
    let left = src.len() - at;
    if left < 4 {
        return Err(Refusal::BrokenRange);
    }
    let n = le::get4(src, at) as usize;
    if left - 4 < n {
        return Err(Refusal::BrokenRange);
    }
    Ok(n)
}

// Whether the slice is drawings, each with its length before it, and no more than there may be.
fn check_drawings(src: &[u8]) -> Result<(), Refusal>
    ensures { told result ≡ tested (drawings_in most_drawings src.now) }
{
    let mut next: usize = 0;
    let mut count: usize = 0;
    while next < src.len() {
        if count == MOST_DRAWINGS {
            return Err(Refusal::BrokenRange);
        }
        let n = drawing_length(src, next)?;
        next = next + 4 + n;
        count += 1;
    }
    Ok(())
}

// The dearest after one drawing more: the first on a tie.
fn dearer_of(d: Option<Dearest>, index: u32, total: u64) -> Option<Dearest>
    ensures { result ≡ dearest_in (dearer (dearest_meant d) index total) }
{
    match d {
        Some(most) if total <= most.total => d,
        _ => Some(Dearest { index, total }),
    }
}

// Two rows of counts, kind by kind.
fn add_counts(parts: [u32; 12], counts: [u32; 12]) -> [u32; 12]
    requires { (length parts ≡ 12) × (length counts ≡ 12) × Below 2147483648 parts × Below 2147483648 counts }
    ensures { result ≡ sums parts counts }
{
    let mut both = parts;
    for (k, &n) in counts.iter().enumerate() {
        both[k] += n;
    }
    both
}

// One drawing more that was refused by this number.
fn add_refusal(t: Totals, no: u32) -> Totals
    requires { (1 ≤ no) × (no ≤ 17) × Upto 999 t }
    ensures { result ≡ refused_once t no }
{
    let k = no as usize - 1;
    let mut refusals = t.refusals;
    refusals[k] += 1;
    Totals {
        drawings: t.drawings + 1,
        refusals,
        ..t
    }
}

// One drawing more that has this parts list.
fn add_bill(t: Totals, bill: Bill) -> Totals
    requires { Upto 999 t × Listed bill }
    ensures { result ≡ priced_once t bill }
{
    let parts = add_counts(t.parts, bill.counts);
    Totals {
        drawings: t.drawings + 1,
        priced: t.priced + 1,
        parts,
        buffers: t.buffers + bill.buffers,
        sum: t.sum + bill.total,
        dearest: dearer_of(t.dearest, t.drawings, bill.total),
        ..t
    }
}

// One drawing more.
fn add_drawing(t: Totals, src: &[u8], room: &mut [u8]) -> Totals
    requires { Upto 999 t × (room_price ≤ length room.old) }
    ensures { result ≡ added t (spec.price src.now) }
{
    match price_drawing(src, room) {
        Ok(bill) => add_bill(t, bill),
        Err(refusal) => add_refusal(t, refusal.number()),
    }
}

// Totals of no drawing.
fn none() -> Totals
    ensures { result ≡ nothing }
{
    Totals {
        drawings: 0,
        priced: 0,
        refusals: [0; 17],
        parts: [0; 12],
        buffers: 0,
        sum: 0,
        dearest: None,
    }
}

// The totals of a slice that is in order: each drawing is a part of it.
fn price_drawings(src: &[u8], room: &mut [u8]) -> Totals
    requires { (drawings_in most_drawings src.now ≡ answered (forms_of src.now)) × (room_price ≤ length room.old) }
    ensures { result ≡ totals_of (map spec.price (forms_of src.now)) }
{
    let mut t = none();
    let mut at: usize = 0;
    while at < src.len() {
        let n = le::get4(src, at) as usize;
        let start = at + 4;
        let end = start + n;
        t = add_drawing(t, &src[start..end], room);
        at = end;
    }
    t
}

// The totals of any bytes.
pub fn price_slice(src: &[u8], room: &mut [u8]) -> Result<Totals, Refusal>
    ensures { told result ≡ ranging (in_work_room room_price (length room.old) (drawings_in most_drawings src.now)) }
{
    lists::work_room(room.len(), crate::ROOM_PRICE_RANGE)?;
    check_drawings(src)?;
    Ok(price_drawings(src, room))
}

// The mean over so many; of none it is nothing.
pub fn mean_of(sum: u64, priced: u32) -> Mean
    requires { priced ≡ 0 → sum ≡ 0 }
    ensures { result ≡ mean_of sum priced }
{
    if priced == 0 {
        return Mean { whole: 0, rest: 0 };
    }
    let n = priced as u64;
    Mean {
        whole: sum / n,
        rest: (sum % n) as u32,
    }
}

// The index of the dearest drawing, or the number that says that there is none.
pub fn index_of(d: Option<Dearest>) -> u32
    ensures { result ≡ index_of (dearest_meant d) }
{
    d.map_or(NO_DRAWING, |most| most.index)
}

// The counts at the front of the report.
fn put_totals(out: &mut [u8], t: Totals)
    requires { (148 ≤ length out.old) × Upto 1000 t }
    ensures { out.new ≡ sets out.old 0 (front_of t) }
{
    le::put4(out, 0, t.priced);
    put_row(out, 4, &t.refusals);
    put_row(out, 72, &t.parts);
    le::put4(out, 120, t.buffers);
}

// The amounts behind them.
fn put_amounts(out: &mut [u8], t: Totals)
    requires { (148 ≤ length out.old) × Upto 1000 t }
    ensures { out.new ≡ sets out.old 124 (amounts_of t) }
{
    put8(out, 124, t.sum);
    le::put4(out, 132, index_of(t.dearest));
    let mean = mean_of(t.sum, t.priced);
    put8(out, 136, mean.whole);
    le::put4(out, 144, mean.rest);
}

// The report as its bytes.
fn put_report(out: &mut [u8], t: Totals)
    requires { (148 ≤ length out.old) × Upto 1000 t }
    ensures { out.new ≡ sets out.old 0 (front_of t ++ amounts_of t) }
{
    put_totals(out, t);
    put_amounts(out, t);
}

// The report on a slice of drawings.
pub fn price_range(src: &[u8], out: &mut [u8], room: &mut [u8]) -> Result<Done, Refusal>
    ensures { Gives (price_range_call src.now (length out.old) (length room.old)) result out.old out.new }
{
    let totals = price_slice(src, room)?;
    if out.len() < RANGE_BYTES {
        return Err(Refusal::NoRoom);
    }
    put_report(out, totals);
    Ok(Done {
        a: RANGE_BYTES,
        b: 0,
    })
}

// How many drawings of a slice were priced and how many refused by each number, how many parts and loop buffers they have, the exact sum, the dearest and the mean.
pub fn ohg_price_range(src: &[u8], out: &mut [u8], room: &mut [u8]) -> u64
    ensures { Returns (price_range_call src.now (length out.old) (length room.old)) result out.old out.new }
{
    pack(price_range(src, out, room))
}
