// The lines of the report, put into lent bytes one after the other. Each function answers the place after what it has put, and bounds it so that the next one
// has room: a line of three numbers takes at most 100 bytes.
ghost use Rattle.std.specs.Prelude.{◌+◌, ◌*◌, ◌≤◌, length};
ghost use Rattle.graph.specs.Lists.{joined};
ghost use Rattle.graph.specs.Graph.{form1};
ghost use Rattle.io.specs.Counts.{IsPrefixLen};
ghost use Rattle.le.specs.Rows.{row_at, Holds, span};
ghost use Rattle.text.specs.Text.{Printed};
ghost use Rattle.report.specs.Report.{sizes_line, counts_line, id_line, drawing_text, report_room};

use form::Sizes;
use le::Row;
use text::{put_field, put_number, put_text};

fn put_sizes(out: &mut [u8], at: usize, z: Sizes) -> usize
    requires { at + 100 ≤ length out.old }
    ensures printed { Printed out.old at (sizes_line z.nodes z.edges z.ports) out.new result }
    ensures upper_bound { result ≤ at + 100 }
{
    let nodes = put_field(out, at, b"nodes ", z.nodes);
    let edges = put_field(out, nodes, b" edges ", z.edges);
    let ports = put_field(out, edges, b" ports ", z.ports);
    put_text(out, ports, b"\n")
}

fn put_counts(out: &mut [u8], at: usize, ids: usize, free: usize) -> usize
    requires { at + 100 ≤ length out.old }
    ensures printed { Printed out.old at (counts_line ids free) out.new result }
    ensures upper_bound { result ≤ at + 100 }
{
    let cut = put_field(out, at, b"cut ", ids);
    let freed = put_field(out, cut, b" free ", free);
    put_text(out, freed, b"\n")
}

fn put_id(out: &mut [u8], at: usize, id: usize) -> usize
    requires { at + 21 ≤ length out.old }
    ensures printed { Printed out.old at (id_line id) out.new result }
    ensures upper_bound { result ≤ at + 21 }
{
    let after = put_number(out, at, id);
    put_text(out, after, b"\n")
}

// The first ids of a row, one a line.
fn put_ids(out: &mut [u8], at: usize, list: &[u8], row: Row, ids: usize) -> usize
    requires { Holds list.now row ids × (at + ids * 21 ≤ length out.old) }
    ensures printed { Printed out.old at (joined id_line (span list.now row 0 ids)) out.new result }
    ensures upper_bound { result ≤ at + ids * 21 }
{
    let mut next = at;
    for i in 0..ids {
        let id = le::number(list, row, i);
        next = put_id(out, next, id);
    }
    next
}

// A drawing of these sizes, of which the first ids of the list are cut.
pub fn put_drawing(out: &mut [u8], z: Sizes, list: &[u8], ids: usize, free: usize) -> usize
    requires { (ids ≤ form1.most.nodes) × Holds list.now (row_at 0 z.width) ids × (report_room ≤ length out.old) }
    ensures printed { Printed out.old 0
        (drawing_text z.nodes z.edges z.ports free (span list.now (row_at 0 z.width) 0 ids)) out.new result }
    ensures prefix_len { IsPrefixLen result out.new }
{
    let sizes = put_text(out, 0, b"OHG 1\n");
    let counts = put_sizes(out, sizes, z);
    let lines = put_counts(out, counts, ids, free);
    let row = Row {
        at: 0,
        width: z.width,
    };
    put_ids(out, lines, list, row, ids)
}
