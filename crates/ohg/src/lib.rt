// The functions that the tool calls from C, where `ohg_c` exports each under its name. Each checks its input itself, and returns code, a and b packed into one number.
#![tactic(auto)]

ghost use Rattle.std.specs.Prelude.{◌≡◌, length};
ghost use Rattle.graph.specs.Calls.{read_call, rewrite_call, empty_call, discrete_call, identity_call, singleton_call, new_node_call, new_edge_call, new_operation_call, unify_call, add_edge_source_call, add_edge_target_call, delete_edges_call, delete_nodes_call, quotient_call, spiderize_call, spiderize_nodes_call, once_fed_call};
ghost use Rattle.choice.specs.Calls.{cycle_breaking_nodes_call, cycle_breaking_nodes_keeping_call, cycle_breaking_nodes_scanning_call, no_loop_call, find_loop_call, reasons_call};
ghost use Rattle.steps.specs.Calls.{build_call};
ghost use Rattle.packing.specs.Packed.{packed, Returns, ReturnsMap};
ghost use Rattle.ohg.specs.Built.{ReturnsBuilt, packed_ending, PacksEnding};

use build::Stop;
use form::Done;
use packing::pack;

// The sizes of the graph: nodes, edges, ports, global sources, global targets, pairs.
pub fn ohg_read(src: &[u8], sizes: &mut [u8]) -> u64
    ensures { Returns (read_call src.now (length sizes.old)) result sizes.old sizes.new }
{
    let x = rewrite::read_sizes(src, sizes);
    pack(x)
}

// The graph read and written.
pub fn ohg_rewrite(src: &[u8], out: &mut [u8]) -> u64
    ensures { Returns (rewrite_call src.now (length out.old)) result out.old out.new }
{
    let x = rewrite::rewrite(src, out);
    pack(x)
}

// The graph with nothing in it.
pub fn ohg_empty(out: &mut [u8]) -> u64
    ensures { Returns (empty_call (length out.old)) result out.old out.new }
{
    let x = hypergraph::empty(out);
    pack(x)
}

// Nodes of these labels and nothing else.
pub fn ohg_discrete(labels: &[u8], out: &mut [u8]) -> u64
    ensures { Returns (discrete_call labels.now (length out.old)) result out.old out.new }
{
    let x = hypergraph::discrete(labels, out);
    pack(x)
}

// Nodes of these labels, each a global source and a global target.
pub fn ohg_identity(labels: &[u8], out: &mut [u8]) -> u64
    ensures { Returns (identity_call labels.now (length out.old)) result out.old out.new }
{
    let x = open_hypergraph::identity(labels, out);
    pack(x)
}

// One edge alone, its sources and targets the global ones.
pub fn ohg_singleton(label: u32, sources: &[u8], targets: &[u8], out: &mut [u8]) -> u64
    ensures { Returns (singleton_call label sources.now targets.now (length out.old)) result out.old out.new }
{
    let x = open_hypergraph::singleton(label, sources, targets, out);
    pack(x)
}

// One more node.
pub fn ohg_new_node(src: &[u8], label: u32, out: &mut [u8]) -> u64
    ensures { Returns (new_node_call src.now label (length out.old)) result out.old out.new }
{
    let x = hypergraph::new_node(src, label, out);
    pack(x)
}

// One more edge between nodes that are there.
pub fn ohg_new_edge(src: &[u8], label: u32, sources: &[u8], targets: &[u8], out: &mut [u8]) -> u64
    ensures { Returns (new_edge_call src.now label sources.now targets.now (length out.old)) result out.old out.new }
{
    let x = operations::new_edge(src, label, sources, targets, out);
    pack(x)
}

// One more edge, with a new node for each of its sources and targets.
pub fn ohg_new_operation(
    src: &[u8],
    label: u32,
    sources: &[u8],
    targets: &[u8],
    out: &mut [u8],
) -> u64
    ensures { Returns (new_operation_call src.now label sources.now targets.now (length out.old)) result out.old out.new }
{
    let x = operations::new_operation(src, label, sources, targets, out);
    pack(x)
}

// One more pending pair.
pub fn ohg_unify(src: &[u8], v: u32, w: u32, out: &mut [u8]) -> u64
    ensures { Returns (unify_call src.now v w (length out.old)) result out.old out.new }
{
    let x = hypergraph::unify(src, v, w, out);
    pack(x)
}

// One more node, at the end of an edge's sources.
pub fn ohg_add_edge_source(src: &[u8], edge: u32, label: u32, out: &mut [u8]) -> u64
    ensures { Returns (add_edge_source_call src.now edge label (length out.old)) result out.old out.new }
{
    let x = ports::add_edge_source(src, edge, label, out);
    pack(x)
}

// One more node, at the end of an edge's targets.
pub fn ohg_add_edge_target(src: &[u8], edge: u32, label: u32, out: &mut [u8]) -> u64
    ensures { Returns (add_edge_target_call src.now edge label (length out.old)) result out.old out.new }
{
    let x = ports::add_edge_target(src, edge, label, out);
    pack(x)
}

// The graph without these edges.
pub fn ohg_delete_edges(src: &[u8], ids: &[u8], out: &mut [u8], room: &mut [u8]) -> u64
    ensures { Returns (delete_edges_call src.now ids.now (length out.old) (length room.old)) result out.old out.new }
{
    let x = delete::delete_edges(src, ids, out, room);
    pack(x)
}

// The graph without these nodes, and where each old node went.
pub fn ohg_delete_nodes(
    src: &[u8],
    ids: &[u8],
    out: &mut [u8],
    map: &mut [u8],
    room: &mut [u8],
) -> u64
    ensures { ReturnsMap (delete_nodes_call src.now ids.now (length out.old) (length map.old) (length room.old)) result out.old out.new map.old map.new }
{
    let x = delete::delete_nodes(src, ids, out, map, room);
    pack(x)
}

// The graph with one node for each class of nodes that its pairs join, and where each old node went.
pub fn ohg_quotient(src: &[u8], out: &mut [u8], map: &mut [u8], room: &mut [u8]) -> u64
    ensures { ReturnsMap (quotient_call src.now (length out.old) (length map.old) (length room.old)) result out.old out.new map.old map.new }
{
    let x = quotient::quotient(src, out, map, room);
    pack(x)
}

// The graph spiderized at all its nodes.
pub fn ohg_spiderize(src: &[u8], out: &mut [u8], room: &mut [u8]) -> u64
    ensures { Returns (spiderize_call src.now (length out.old) (length room.old)) result out.old out.new }
{
    let x = spider::spiderize(src, out, room);
    pack(x)
}

// The graph spiderized at these nodes.
pub fn ohg_spiderize_nodes(src: &[u8], ids: &[u8], out: &mut [u8], room: &mut [u8]) -> u64
    ensures { Returns (spiderize_nodes_call src.now ids.now (length out.old) (length room.old)) result out.old out.new }
{
    let x = spider::spiderize_nodes(src, ids, out, room);
    pack(x)
}

// Nodes that every directed cycle passes through.
pub fn ohg_cycle_breaking_nodes(src: &[u8], list: &mut [u8], room: &mut [u8]) -> u64
    ensures { Returns (cycle_breaking_nodes_call src.now (length list.old) (length room.old)) result list.old list.new }
{
    let x = cycle::cycle_breaking_nodes(src, list, room);
    pack(x)
}

// Nodes that every directed cycle passes through, none of them kept.
pub fn ohg_cycle_breaking_nodes_keeping(
    src: &[u8],
    kept: &[u8],
    list: &mut [u8],
    room: &mut [u8],
) -> u64
    ensures { Returns (cycle_breaking_nodes_keeping_call src.now kept.now (length list.old) (length room.old)) result list.old list.new }
{
    let x = cycle::cycle_breaking_nodes_keeping(src, kept, list, room);
    pack(x)
}

// The same by the engine that needs less room and more time.
pub fn ohg_cycle_breaking_nodes_scanning(
    src: &[u8],
    kept: &[u8],
    list: &mut [u8],
    room: &mut [u8],
) -> u64
    ensures { Returns (cycle_breaking_nodes_scanning_call src.now kept.now (length list.old) (length room.old)) result list.old list.new }
{
    let x = scan::cycle_breaking_nodes_scanning(src, kept, list, room);
    pack(x)
}

// Why each node is one of these, or was freed.
pub fn ohg_reasons(src: &[u8], out: &mut [u8], room: &mut [u8]) -> u64
    ensures { Returns (reasons_call src.now (length out.old) (length room.old)) result out.old out.new }
{
    let x = reasons::reasons(src, out, room);
    pack(x)
}

// Whether there is no directed cycle.
pub fn ohg_no_loop(src: &[u8], room: &mut [u8]) -> u64
    ensures { result ≡ packed (no_loop_call src.now (length room.old)) }
{
    let x = cycle::no_loop(src, room);
    pack(x)
}

// A directed cycle, if there is one: its nodes and edges in their order, and how many steps the walk took that found it.
pub fn ohg_find_loop(src: &[u8], list: &mut [u8], room: &mut [u8]) -> u64
    ensures { Returns (find_loop_call src.now (length list.old) (length room.old)) result list.old list.new }
{
    let x = loops::find_loop(src, list, room);
    pack(x)
}

// Whether each node is fed exactly once, counting edge targets and global sources, and used exactly once, counting edge sources and global targets.
pub fn ohg_once_fed(src: &[u8], room: &mut [u8]) -> u64
    ensures { result ≡ packed (once_fed_call src.now (length room.old)) }
{
    let x = once_fed::once_fed(src, room);
    pack(x)
}

// What a call with steps answered, as one number. On a refusal a is the index of its step; one that has more than 24 bits is given as the highest number.
fn pack_built(x: Result<Done, Stop>) -> u64
    requires { PacksEnding x }
    ensures { result ≡ packed_ending x }
{
    match x {
        Ok(done) => pack(Ok(done)),
        Err(stop) => pack(Err(stop.refusal)) + 256 * (stop.index.min(16777215) as u64),
    }
}

// The graph that building and deleting steps give, one after the other.
pub fn ohg_build(src: &[u8], steps: &[u8], out: &mut [u8], room: &mut [u8]) -> u64
    ensures { ReturnsBuilt (build_call src.now steps.now (length out.old) (length room.old)) result out.old out.new }
{
    let x = build::build(src, steps, out, room);
    pack_built(x)
}
