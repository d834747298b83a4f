// Deleting edges and nodes: document 01's modules 2 and 3, after `delete_edges` and `delete_nodes_witness` of hypergraph.rs and `delete_nodes` of
// open_hypergraph.rs. The ids that go are marked in the work room, one byte for each; a first pass counts what stays, a second one writes it.
#![tactic(auto)]

ghost use Rattle.std.specs.Prelude.{length};
ghost use Rattle.graph.specs.Calls.{delete_edges_call, delete_nodes_call};
ghost use Rattle.form.specs.Form.{Gives, GivesMap};

use form::{Done, Refusal};
use le::Row;

// The work room that `delete_edges` is lent at least: a byte for each edge.
pub const ROOM_DELETE_EDGES: usize = graph::MAX_EDGES;

// The work room that `delete_nodes` is lent at least: a byte for each node.
pub const ROOM_DELETE_NODES: usize = graph::MAX_NODES;

// The graph without the listed edges; the rest stay in order.
pub fn delete_edges(
    src: &[u8],
    ids: &[u8],
    out: &mut [u8],
    room: &mut [u8],
) -> Result<Done, Refusal>
    ensures { Gives (delete_edges_call src.now ids.now (length out.old) (length room.old)) result out.old out.new }
{
    lists::work_room(room.len(), ROOM_DELETE_EDGES)?;
    let drawing = read::read(src)?;
    let z = drawing.sizes;
    let n = lists::id_list(ids, z.width, z.edges)?;
    let r = Row {
        at: 0,
        width: z.width,
    };
    gone::mark(room, z.edges, ids, r, n);
    let y = gone::without_edges(drawing, room);
    let bytes = write::result_size(y, out.len())?;
    left::put_without_edges(drawing, y, room, out);
    Ok(Done { a: bytes, b: 0 })
}

// The graph without the listed nodes, and the map that says where each old node went: its new id, or the highest number of the width.
pub fn delete_nodes(
    src: &[u8],
    ids: &[u8],
    out: &mut [u8],
    map: &mut [u8],
    room: &mut [u8],
) -> Result<Done, Refusal>
    ensures { GivesMap (delete_nodes_call src.now ids.now (length out.old) (length map.old) (length room.old)) result out.old out.new map.old map.new }
{
    lists::work_room(room.len(), ROOM_DELETE_NODES)?;
    let drawing = read::read(src)?;
    let z = drawing.sizes;
    let n = lists::id_list(ids, z.width, z.nodes)?;
    let r = Row {
        at: 0,
        width: z.width,
    };
    gone::mark(room, z.nodes, ids, r, n);
    let sizes = gone::without_nodes(drawing, room);
    let bytes = write::result_size(sizes, out.len())?;
    lists::work_room(map.len(), z.nodes * z.width)?;
    moved::put_map(room, z.nodes, map, r);
    moved::put_without_nodes(drawing, sizes, room, map, out);
    Ok(Done {
        a: bytes,
        b: z.nodes,
    })
}
