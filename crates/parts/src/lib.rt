// The priced parts list of a drawing: how many edges are of each kind of the catalogue, how many loop buffers the choice asks for, and the exact total in hundredths of a
// cent.
#![tactic(auto)]

ghost use Rattle.std.specs.Prelude.{◌≡◌, ◌+◌, ◌*◌, ◌≤◌, length};
ghost use Rattle.std.proofs.lemmas.List.Edits.{sets};
ghost use Rattle.le.specs.Le.{bytes, row};
ghost use Rattle.graph.specs.Answer.{answered};
ghost use Rattle.graph.specs.Calls.{in_work_room};
ghost use Rattle.graph.specs.Graph.{Edge};
ghost use Rattle.form.specs.Form.{told, tested, Gives};
ghost use Rattle.form.specs.Drawn.{graph_in};
ghost use Rattle.catalogue.specs.Price as spec;
ghost use Rattle.catalogue.specs.Price.{part_check, parts_check, kind_of, room_price, price_call};
ghost use Rattle.parts.specs.Parts.{row_of, parts_of, InCatalogue, Addable, added, billed, Countable, bytes_of, pricing};

use form::{Done, Drawing, Refusal};
use le::Row;

// The work room of the priced parts list: that of the choice.
pub const ROOM_PRICE: usize = cycle::ROOM_CYCLE_BREAKING_NODES;

// The bytes of the answer: twelve counts and the buffers, 4 bytes each, and the total in 8.
pub const PRICE_BYTES: usize = 60;

// The edge label that says spider.
const SPIDER: usize = 4294967295;

// What a loop buffer costs.
pub const BUFFER_PRICE: u64 = 260;

// A kind of part: how many sources and targets it has, and its price in hundredths of a cent.
#[derive(Clone, Copy)]
pub struct KindRow {
    pub sources: usize,
    pub targets: usize,
    pub price: u64,
}

// The kinds 1 to 12.
const CATALOGUE: [KindRow; 12] = [
    KindRow {
        sources: 0,
        targets: 1,
        price: 4200,
    }, // receive
    KindRow {
        sources: 1,
        targets: 0,
        price: 4200,
    }, // transmit
    KindRow {
        sources: 1,
        targets: 2,
        price: 1150,
    }, // parser
    KindRow {
        sources: 2,
        targets: 1,
        price: 640,
    }, // hash
    KindRow {
        sources: 1,
        targets: 1,
        price: 2300,
    }, // server table
    KindRow {
        sources: 2,
        targets: 1,
        price: 390,
    }, // pick
    KindRow {
        sources: 2,
        targets: 1,
        price: 870,
    }, // rewriter
    KindRow {
        sources: 1,
        targets: 1,
        price: 510,
    }, // probe
    KindRow {
        sources: 1,
        targets: 1,
        price: 120,
    }, // counter
    KindRow {
        sources: 1,
        targets: 2,
        price: 95,
    }, // splitter
    KindRow {
        sources: 2,
        targets: 1,
        price: 95,
    }, // joiner
    KindRow {
        sources: 2,
        targets: 2,
        price: 3100,
    }, // flow store
];

// The row of a kind.
pub fn kind_row(label: usize) -> KindRow
    requires { InCatalogue label }
    ensures { result ≡ row_of (kind_of label) }
{
    CATALOGUE[label - 1]
}

// Whether an edge of this label and so many ports is in order: 14 its label is outside the catalogue, else 15 its ports are not those of the row.
fn check_part(label: usize, sources: usize, targets: usize) -> Result<(), Refusal>
    ensures { (e : Edge) → e.label ≡ label → length e.sources ≡ sources → length e.targets ≡ targets → told result ≡ tested (part_check e) }
{
    if label == SPIDER {
        return Ok(());
    }
    if label < 1 || 12 < label {
        return Err(Refusal::UnknownKind);
    }
    let row = kind_row(label);
    if sources != row.sources || targets != row.targets {
        return Err(Refusal::WrongPorts);
    }
    Ok(())
}

// Whether the edges are in order; the first that is not decides.
fn check_parts(drawing: Drawing<'_>) -> Result<(), Refusal>
    ensures { told result ≡ tested (parts_check (graph_in drawing.entry).edges) }
{
    let labels = drawing.labels();
    let body = drawing.body();
    let mut k: usize = 0;
    for i in 0..drawing.sizes.edges {
        let label = le::number(drawing.src, labels, drawing.sizes.nodes + i);
        let e = form::edge_at(drawing.src, body, k);
        check_part(label, e.sources, e.targets)?;
        k = e.end;
    }
    Ok(())
}

// How many edges of each kind there are, and what they cost together.
#[derive(Clone, Copy)]
pub struct Parts {
    pub counts: [u32; 12],
    pub total: u64,
}

// One edge more: its kind's counter is raised. Spiders are free.
fn add_part(p: Parts, label: usize) -> Parts
    requires { Addable p label }
    ensures { result ≡ added p label }
{
    if label == SPIDER {
        return p;
    }
    let row = kind_row(label);
    let mut counts = p.counts;
    counts[label - 1] += 1;
    Parts {
        counts,
        total: p.total + row.price,
    }
}

// The parts of a drawing whose edges are in order.
fn count_parts(drawing: Drawing<'_>) -> Parts
    requires { parts_check (graph_in drawing).edges ≡ answered tt }
    ensures { result ≡ parts_of (graph_in drawing.entry).edges }
{
    let labels = drawing.labels();
    let mut parts = Parts {
        counts: [0; 12],
        total: 0,
    };
    for i in 0..drawing.sizes.edges {
        let label = le::number(drawing.src, labels, drawing.sizes.nodes + i);
        parts = add_part(parts, label);
    }
    parts
}

// A priced parts list: how many edges of each kind, how many loop buffers, and the exact total in hundredths of a cent.
#[derive(Clone, Copy)]
pub struct Bill {
    pub counts: [u32; 12],
    pub buffers: u32,
    pub total: u64,
}

// These parts with so many loop buffers.
fn with_buffers(p: Parts, buffers: usize) -> Bill
    requires { (buffers ≤ 16384) × (p.total ≤ 68812800) }
    ensures { result ≡ billed p buffers }
{
    let counts = p.counts;
    Bill {
        counts,
        buffers: buffers as u32,
        total: p.total + BUFFER_PRICE * (buffers as u64),
    }
}

// The priced parts list of any bytes.
pub fn price_drawing(src: &[u8], room: &mut [u8]) -> Result<Bill, Refusal>
    ensures { told result ≡ pricing (in_work_room room_price (length room.old) (spec.price src.now)) }
{
    lists::work_room(room.len(), ROOM_PRICE)?;
    let drawing = read::read(src)?;
    lists::unpaired(drawing.sizes)?;
    check_parts(drawing)?;
    let counted = count_parts(drawing);
    let buffers = cycle::count_chosen(room, drawing);
    Ok(with_buffers(counted, buffers))
}

// Numbers of 4 bytes from `at` on.
pub fn put_row(out: &mut [u8], at: usize, ns: &[u32])
    requires { at + 4 * length ns.now ≤ length out.old }
    ensures { out.new ≡ sets out.old at (row 4 ns.now) }
{
    let r = Row { at, width: 4 };
    for (k, &n) in ns.iter().enumerate() {
        le::put_number(out, r, k, n as usize);
    }
}

// A number as 8 bytes at `at`.
pub fn put8(d: &mut [u8], at: usize, v: u64)
    requires { at + 8 ≤ length d.old }
    ensures { d.new ≡ sets d.old at (bytes 8 v) }
{
    le::put4(d, at, (v % 4294967296) as u32);
    le::put4(d, at + 4, (v / 4294967296) as u32);
}

// A list as the answer's bytes.
fn put_bill(out: &mut [u8], bill: Bill)
    requires { (60 ≤ length out.old) × Countable bill.counts }
    ensures { out.new ≡ sets out.old 0 (bytes_of bill) }
{
    put_row(out, 0, &bill.counts);
    le::put4(out, 48, bill.buffers);
    put8(out, 52, bill.total);
}

// The priced parts list of a stored drawing.
pub fn price(src: &[u8], out: &mut [u8], room: &mut [u8]) -> Result<Done, Refusal>
    ensures { Gives (price_call src.now (length out.old) (length room.old)) result out.old out.new }
{
    let bill = price_drawing(src, room)?;
    if out.len() < PRICE_BYTES {
        return Err(Refusal::NoRoom);
    }
    put_bill(out, bill);
    Ok(Done {
        a: PRICE_BYTES,
        b: 0,
    })
}
