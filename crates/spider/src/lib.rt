// Spiderizing: joined nodes are merged, and then the implicit wiring of listed nodes is made explicit. Every entry of a listed node gets a fresh node, and two
// spiders for each listed node join what the fresh nodes took apart.
#![tactic(auto)]

ghost use Rattle.std.specs.Prelude.{◌≡◌, true, false, ℕ, ◌*◌, ◌<◌, ◌≤◌, length, get_or, replicate};
ghost use Rattle.std.proofs.lemmas.List.Edits.{sets};
ghost use Rattle.le.specs.Le.{Below, words};
ghost use Rattle.le.specs.Rows.{Holds, span};
ghost use Rattle.graph.specs.Lists.{among};
ghost use Rattle.graph.specs.Graph.{Graph, Format, largest};
ghost use Rattle.graph.specs.Answer.{Answer, answered};
ghost use Rattle.graph.specs.Merge.{looked};
ghost use Rattle.graph.specs.Calls.{Next, on_graph, room_spiderize, spiderize_call, spiderize_nodes_call};
ghost use Rattle.form.specs.Form.{Gives};
ghost use Rattle.form.specs.Stored.{format_of};
ghost use Rattle.form.specs.Drawn.{graph_in};
ghost use Rattle.links.specs.Links.{cells, Heads};
ghost use Rattle.copying.specs.Merged.{table_of, Lists, spidered_of, Ready};

use form::{Done, Drawing, Refusal};
use le::Row;

// The work room of either call: a word for each node, and behind them four cells for each, or three for each and one for each fresh node.
pub const ROOM_SPIDERIZE_NODES: usize = 12 * graph::MAX_NODES;

pub const ROOM_SPIDERIZE: usize = 12 * graph::MAX_NODES;

// No node is listed in the table behind the map.
fn list_nothing(room: &mut [u8], nodes: usize)
    requires { (room_spiderize ≤ length room.old) × (nodes ≤ largest.most.nodes) }
    ensures { Lists nodes room.old (λ x. false) room.new }
{
    let at = copying::TABLE;
    links::list_none(&mut room[at..], nodes);
}

// The class of an id is listed in the table behind the map.
fn list_class(room: &mut [u8], id: usize, nodes: usize)
    requires { (room_spiderize ≤ length room.old) × (id < largest.most.nodes) × (get_or (words room.old) id 0 < nodes) × (nodes ≤ largest.most.nodes) }
    ensures { (cells (table_of room.new) ≡ sets (cells (table_of room.old)) (get_or (words room.old) id 0 * 4) (replicate 4 0))
        × ((v : ℕ) → v < largest.most.nodes → get_or (words room.new) v 0 ≡ get_or (words room.old) v 0) }
{
    let class = le::word(room, id) as usize;
    let at = copying::TABLE;
    links::list_id(&mut room[at..], class, nodes);
}

// The classes of the first n ids of a row are listed in the table behind the map.
fn list_classes(room: &mut [u8], ids: &[u8], r: Row, n: usize, nodes: usize)
    requires { (room_spiderize ≤ length room.old) × (nodes ≤ largest.most.nodes) × Holds ids.now r n × Below largest.most.nodes (span ids.now r 0 n) × Below nodes (looked (words room.old) (span ids.now r 0 n)) }
    ensures { Heads nodes (cells (table_of room.old)) (λ x. false) → Lists nodes room.old (among (looked (words room.old) (span ids.now r 0 n))) room.new }
{
    for j in 0..n {
        let id = le::number(ids, r, j);
        list_class(room, id, nodes);
    }
}

// All nodes are listed in the table behind the map.
fn list_every(room: &mut [u8], nodes: usize)
    requires { (room_spiderize ≤ length room.old) × (nodes ≤ largest.most.nodes) }
    ensures { Lists nodes room.old (λ x. true) room.new }
{
    let at = copying::TABLE;
    links::list_all(&mut room[at..], nodes);
}

// The merged graph, which has so many nodes, spiderized at the nodes that the table behind the map lists: 9 and 10, or its form.
fn write_spiderized(
    drawing: Drawing<'_>,
    nodes: usize,
    room: &mut [u8],
    out: &mut [u8],
) -> Result<Done, Refusal>
    requires { Ready drawing nodes room.old }
    ensures { (next : Format → Graph → Answer Next)
        → next (format_of drawing.entry.src.now) (graph_in drawing.entry) ≡ answered (record { graph = spidered_of drawing.entry nodes room.old; id = 0 })
        → Gives (on_graph drawing.entry.src.now (length out.old) next) result out.old out.new }
{
    let y = copying::result_sizes(drawing, nodes, room);
    let bytes = write::result_size(y, out.len())?;
    copying::put_copied(drawing, y, room, out);
    let at = copying::TABLE;
    let edges = drawing.sizes.edges;
    let rows = drawing.lists();
    rewriting::rewrite_all(y, nodes, edges, rows, &mut room[at..], out);
    Ok(Done { a: bytes, b: 0 })
}

// The graph merged, and spiderized at the nodes that those of a list became.
pub fn spiderize_nodes(
    src: &[u8],
    ids: &[u8],
    out: &mut [u8],
    room: &mut [u8],
) -> Result<Done, Refusal>
    ensures { Gives (spiderize_nodes_call src.now ids.now (length out.old) (length room.old)) result out.old out.new }
{
    lists::work_room(room.len(), ROOM_SPIDERIZE_NODES)?;
    let drawing = read::read(src)?;
    let z = drawing.sizes;
    let n = lists::id_list(ids, z.width, z.nodes)?;
    let nodes = classes::map_classes(drawing, room)?;
    let row = Row {
        at: 0,
        width: z.width,
    };
    list_nothing(room, nodes);
    list_classes(room, ids, row, n, nodes);
    write_spiderized(drawing, nodes, room, out)
}

// The graph merged, and spiderized at all its nodes.
pub fn spiderize(src: &[u8], out: &mut [u8], room: &mut [u8]) -> Result<Done, Refusal>
    ensures { Gives (spiderize_call src.now (length out.old) (length room.old)) result out.old out.new }
{
    lists::work_room(room.len(), ROOM_SPIDERIZE)?;
    let drawing = read::read(src)?;
    let nodes = classes::map_classes(drawing, room)?;
    list_every(room, nodes);
    write_spiderized(drawing, nodes, room, out)
}
