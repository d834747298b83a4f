// What C calls: each function of `ohg` under its own name, with its contract. Slices are a pointer and then a length, and the numbers are those of `ohg`.
#![tactic(auto)]

ghost use Rattle.std.specs.Prelude.{◌≡◌, length};
ghost use Rattle.graph.specs.Calls.{read_call, rewrite_call, empty_call, discrete_call, identity_call, singleton_call, new_node_call, new_edge_call, new_operation_call, unify_call, add_edge_source_call, add_edge_target_call, delete_edges_call, delete_nodes_call, quotient_call, spiderize_call, spiderize_nodes_call, once_fed_call};
ghost use Rattle.choice.specs.Calls.{cycle_breaking_nodes_call, cycle_breaking_nodes_keeping_call, cycle_breaking_nodes_scanning_call, no_loop_call, find_loop_call, reasons_call};
ghost use Rattle.steps.specs.Calls.{build_call};
ghost use Rattle.packing.specs.Packed.{packed, Returns, ReturnsMap};
ghost use Rattle.ohg.specs.Built.{ReturnsBuilt};

// The sizes of the graph: nodes, edges, ports, global sources, global targets, pairs.
#[unsafe(no_mangle)]
pub extern "C" fn ohg_read(src: &[u8], sizes: &mut [u8]) -> u64
    ensures { Returns (read_call src.now (length sizes.old)) result sizes.old sizes.new }
{
    ohg::ohg_read(src, sizes)
}

// The graph read and written.
#[unsafe(no_mangle)]
pub extern "C" fn ohg_rewrite(src: &[u8], out: &mut [u8]) -> u64
    ensures { Returns (rewrite_call src.now (length out.old)) result out.old out.new }
{
    ohg::ohg_rewrite(src, out)
}

// The graph with nothing in it.
#[unsafe(no_mangle)]
pub extern "C" fn ohg_empty(out: &mut [u8]) -> u64
    ensures { Returns (empty_call (length out.old)) result out.old out.new }
{
    ohg::ohg_empty(out)
}

// Nodes of these labels and nothing else.
#[unsafe(no_mangle)]
pub extern "C" fn ohg_discrete(labels: &[u8], out: &mut [u8]) -> u64
    ensures { Returns (discrete_call labels.now (length out.old)) result out.old out.new }
{
    ohg::ohg_discrete(labels, out)
}

// Nodes of these labels, each a global source and a global target.
#[unsafe(no_mangle)]
pub extern "C" fn ohg_identity(labels: &[u8], out: &mut [u8]) -> u64
    ensures { Returns (identity_call labels.now (length out.old)) result out.old out.new }
{
    ohg::ohg_identity(labels, out)
}

// One edge alone, its sources and targets the global ones.
#[unsafe(no_mangle)]
pub extern "C" fn ohg_singleton(label: u32, sources: &[u8], targets: &[u8], out: &mut [u8]) -> u64
    ensures { Returns (singleton_call label sources.now targets.now (length out.old)) result out.old out.new }
{
    ohg::ohg_singleton(label, sources, targets, out)
}

// One more node.
#[unsafe(no_mangle)]
pub extern "C" fn ohg_new_node(src: &[u8], label: u32, out: &mut [u8]) -> u64
    ensures { Returns (new_node_call src.now label (length out.old)) result out.old out.new }
{
    ohg::ohg_new_node(src, label, out)
}

// One more edge between nodes that are there.
#[unsafe(no_mangle)]
pub extern "C" fn ohg_new_edge(
    src: &[u8],
    label: u32,
    sources: &[u8],
    targets: &[u8],
    out: &mut [u8],
) -> u64
    ensures { Returns (new_edge_call src.now label sources.now targets.now (length out.old)) result out.old out.new }
{
    ohg::ohg_new_edge(src, label, sources, targets, out)
}

// One more edge, with a new node for each of its sources and targets.
#[unsafe(no_mangle)]
pub extern "C" fn ohg_new_operation(
    src: &[u8],
    label: u32,
    sources: &[u8],
    targets: &[u8],
    out: &mut [u8],
) -> u64
    ensures { Returns (new_operation_call src.now label sources.now targets.now (length out.old)) result out.old out.new }
{
    ohg::ohg_new_operation(src, label, sources, targets, out)
}

// One more pending pair.
#[unsafe(no_mangle)]
pub extern "C" fn ohg_unify(src: &[u8], v: u32, w: u32, out: &mut [u8]) -> u64
    ensures { Returns (unify_call src.now v w (length out.old)) result out.old out.new }
{
    ohg::ohg_unify(src, v, w, out)
}

// One more node, at the end of an edge's sources.
#[unsafe(no_mangle)]
pub extern "C" fn ohg_add_edge_source(src: &[u8], edge: u32, label: u32, out: &mut [u8]) -> u64
    ensures { Returns (add_edge_source_call src.now edge label (length out.old)) result out.old out.new }
{
    ohg::ohg_add_edge_source(src, edge, label, out)
}

// One more node, at the end of an edge's targets.
#[unsafe(no_mangle)]
pub extern "C" fn ohg_add_edge_target(src: &[u8], edge: u32, label: u32, out: &mut [u8]) -> u64
    ensures { Returns (add_edge_target_call src.now edge label (length out.old)) result out.old out.new }
{
    ohg::ohg_add_edge_target(src, edge, label, out)
}

// The graph without these edges.
#[unsafe(no_mangle)]
pub extern "C" fn ohg_delete_edges(src: &[u8], ids: &[u8], out: &mut [u8], room: &mut [u8]) -> u64
    ensures { Returns (delete_edges_call src.now ids.now (length out.old) (length room.old)) result out.old out.new }
{
    ohg::ohg_delete_edges(src, ids, out, room)
}

// The graph without these nodes, and where each old node went.
#[unsafe(no_mangle)]
pub extern "C" fn ohg_delete_nodes(
    src: &[u8],
    ids: &[u8],
    out: &mut [u8],
    map: &mut [u8],
    room: &mut [u8],
) -> u64
    ensures { ReturnsMap (delete_nodes_call src.now ids.now (length out.old) (length map.old) (length room.old)) result out.old out.new map.old map.new }
{
    ohg::ohg_delete_nodes(src, ids, out, map, room)
}

// The graph with one node for each class of nodes that its pairs join, and where each old node went.
#[unsafe(no_mangle)]
pub extern "C" fn ohg_quotient(src: &[u8], out: &mut [u8], map: &mut [u8], room: &mut [u8]) -> u64
    ensures { ReturnsMap (quotient_call src.now (length out.old) (length map.old) (length room.old)) result out.old out.new map.old map.new }
{
    ohg::ohg_quotient(src, out, map, room)
}

// The graph spiderized at all its nodes.
#[unsafe(no_mangle)]
pub extern "C" fn ohg_spiderize(src: &[u8], out: &mut [u8], room: &mut [u8]) -> u64
    ensures { Returns (spiderize_call src.now (length out.old) (length room.old)) result out.old out.new }
{
    ohg::ohg_spiderize(src, out, room)
}

// The graph spiderized at these nodes.
#[unsafe(no_mangle)]
pub extern "C" fn ohg_spiderize_nodes(
    src: &[u8],
    ids: &[u8],
    out: &mut [u8],
    room: &mut [u8],
) -> u64
    ensures { Returns (spiderize_nodes_call src.now ids.now (length out.old) (length room.old)) result out.old out.new }
{
    ohg::ohg_spiderize_nodes(src, ids, out, room)
}

// Nodes that every directed cycle passes through.
#[unsafe(no_mangle)]
pub extern "C" fn ohg_cycle_breaking_nodes(src: &[u8], list: &mut [u8], room: &mut [u8]) -> u64
    ensures { Returns (cycle_breaking_nodes_call src.now (length list.old) (length room.old)) result list.old list.new }
{
    ohg::ohg_cycle_breaking_nodes(src, list, room)
}

// Nodes that every directed cycle passes through, none of them kept.
#[unsafe(no_mangle)]
pub extern "C" fn ohg_cycle_breaking_nodes_keeping(
    src: &[u8],
    kept: &[u8],
    list: &mut [u8],
    room: &mut [u8],
) -> u64
    ensures { Returns (cycle_breaking_nodes_keeping_call src.now kept.now (length list.old) (length room.old)) result list.old list.new }
{
    ohg::ohg_cycle_breaking_nodes_keeping(src, kept, list, room)
}

// The same by the engine that needs less room and more time.
#[unsafe(no_mangle)]
pub extern "C" fn ohg_cycle_breaking_nodes_scanning(
    src: &[u8],
    kept: &[u8],
    list: &mut [u8],
    room: &mut [u8],
) -> u64
    ensures { Returns (cycle_breaking_nodes_scanning_call src.now kept.now (length list.old) (length room.old)) result list.old list.new }
{
    ohg::ohg_cycle_breaking_nodes_scanning(src, kept, list, room)
}

// Why each node is one of these, or was freed.
#[unsafe(no_mangle)]
pub extern "C" fn ohg_reasons(src: &[u8], out: &mut [u8], room: &mut [u8]) -> u64
    ensures { Returns (reasons_call src.now (length out.old) (length room.old)) result out.old out.new }
{
    ohg::ohg_reasons(src, out, room)
}

// Whether there is no directed cycle.
#[unsafe(no_mangle)]
pub extern "C" fn ohg_no_loop(src: &[u8], room: &mut [u8]) -> u64
    ensures { result ≡ packed (no_loop_call src.now (length room.old)) }
{
    ohg::ohg_no_loop(src, room)
}

// A directed cycle, if there is one: its nodes and edges in their order, and how many steps the walk took that found it.
#[unsafe(no_mangle)]
pub extern "C" fn ohg_find_loop(src: &[u8], list: &mut [u8], room: &mut [u8]) -> u64
    ensures { Returns (find_loop_call src.now (length list.old) (length room.old)) result list.old list.new }
{
    ohg::ohg_find_loop(src, list, room)
}

// Whether each node is fed exactly once, counting edge targets and global sources, and used exactly once, counting edge sources and global targets.
#[unsafe(no_mangle)]
pub extern "C" fn ohg_once_fed(src: &[u8], room: &mut [u8]) -> u64
    ensures { result ≡ packed (once_fed_call src.now (length room.old)) }
{
    ohg::ohg_once_fed(src, room)
}

// The graph that building and deleting steps give, one after the other.
#[unsafe(no_mangle)]
pub extern "C" fn ohg_build(src: &[u8], steps: &[u8], out: &mut [u8], room: &mut [u8]) -> u64
    ensures { ReturnsBuilt (build_call src.now steps.now (length out.old) (length room.old)) result out.old out.new }
{
    ohg::ohg_build(src, steps, out, room)
}
