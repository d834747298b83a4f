// Many building and deleting steps in one call: the stored graph is loaded into the tables of the room, each step changes the tables, and the last graph is written.
// Nothing is written to the answer buffer before the last step has passed.
#![tactic(auto)]

ghost use Rattle.std.specs.Prelude.{◌≡◌, ℕ, ◌+◌, ◌*◌, ◌<◌, ◌≤◌, ◌^◌, length, get_or, drop};
ghost use Rattle.le.specs.Le.{words, number_at, numbers};
ghost use Rattle.le.specs.Rows.{row_at};
ghost use Rattle.graph.specs.Answer.{answered};
ghost use Rattle.form.specs.Form.{told, counted};
ghost use Rattle.steps.specs.Steps.{node_step, edge_step, operation_step, pair_step, source_step, target_step, without_edges_step, without_nodes_step, head_numbers, read_step, steps_in};
ghost use Rattle.steps.specs.Calls as calls;
ghost use Rattle.steps.specs.Calls.{known_all, build_call};
ghost use Rattle.ledger.specs.Tables.{room_ledger};
ghost use Rattle.ledger.specs.Ledger.{drawing, Sound, more};
ghost use Rattle.build.specs.Turns.{Numbered, number_of, first_numbers, second_numbers, step_in, StepThere, Lies, Finds, Limited, Turned, Leads, GivesBuilt};

use form::{Done, Refusal, Sizes};
use le::Row;

// The bytes of work room.
pub const ROOM_BUILD: usize = ledger::ROOM_BYTES;

// Where the steps end: the index of a step, and why it is refused.
#[derive(Clone, Copy)]
pub struct Stop {
    pub index: usize,
    pub refusal: Refusal,
}

// A refusal before the steps carries index 0.
impl From<Refusal> for Stop {
    ghost from_gives = { λ refusal stop. stop ≡ record { index = 0; refusal = refusal } };

    fn from(refusal: Refusal) -> Stop {
        Stop { index: 0, refusal }
    }
}

// ---- a step taken apart

// What a step does.
#[derive(Clone, Copy, Debug, PartialEq, Eq)]
pub enum Kind {
    NewNode,
    NewEdge,
    NewOperation,
    Unify,
    AddEdgeSource,
    AddEdgeTarget,
    DeleteEdges,
    DeleteNodes,
}

// By the number in the list: 12 it is no step's.
impl TryFrom<u8> for Kind {
    type Error = Refusal;

    ghost try_from_gives = { Numbered };

    fn try_from(number: u8) -> Result<Kind, Refusal> {
        match number {
            1 => Ok(Kind::NewNode),
            2 => Ok(Kind::NewEdge),
            3 => Ok(Kind::NewOperation),
            4 => Ok(Kind::Unify),
            5 => Ok(Kind::AddEdgeSource),
            6 => Ok(Kind::AddEdgeTarget),
            7 => Ok(Kind::DeleteEdges),
            8 => Ok(Kind::DeleteNodes),
            _ => Err(Refusal::BrokenStep),
        }
    }
}

// A step in the list: where its numbers begin and how many there are before its lists, where the lists begin and how many entries each has, and where the next step begins.
#[derive(Clone, Copy)]
pub struct StepAt {
    pub kind: Kind,
    pub at: usize,
    pub first: usize,
    pub second: usize,
    pub lists: usize,
    pub end: usize,
}

// How many numbers a step of this kind begins with.
fn head_numbers(kind: Kind) -> usize
    ensures { result ≡ head_numbers (number_of kind) }
{
    match kind {
        Kind::NewNode | Kind::DeleteEdges | Kind::DeleteNodes => 1,
        Kind::Unify | Kind::AddEdgeSource | Kind::AddEdgeTarget => 2,
        Kind::NewEdge | Kind::NewOperation => 3,
    }
}

// How many entries the first list of a step has whose numbers begin at `at`.
fn first_count(steps: &[u8], kind: Kind, at: usize) -> usize
    requires { at + 4 * head_numbers (number_of kind) ≤ length steps.now }
    ensures { (result ≡ first_numbers (number_of kind) (numbers 4 (head_numbers (number_of kind)) (drop at steps.now))) × (result < 4294967296) }
{
    match kind {
        Kind::NewEdge | Kind::NewOperation => le::get4(steps, at + 4) as usize,
        Kind::DeleteEdges | Kind::DeleteNodes => le::get4(steps, at) as usize,
        _ => 0,
    }
}

// How many the second.
fn second_count(steps: &[u8], kind: Kind, at: usize) -> usize
    requires { at + 4 * head_numbers (number_of kind) ≤ length steps.now }
    ensures { (result ≡ second_numbers (number_of kind) (numbers 4 (head_numbers (number_of kind)) (drop at steps.now))) × (result < 4294967296) }
{
    match kind {
        Kind::NewEdge | Kind::NewOperation => le::get4(steps, at + 8) as usize,
        _ => 0,
    }
}

// The step whose kind stands at a place: 12 an unknown kind, or it is cut short.
fn step_at(steps: &[u8], place: usize) -> Result<StepAt, Refusal>
    requires { place < length steps.now }
    ensures { Finds (read_step (get_or steps.now place 0) (drop (place + 1) steps.now)) result steps.now place }
{
    let kind = Kind::try_from(steps[place])?;
    let at = place + 1;
    let left = (steps.len() - at) / 4;
    let n = head_numbers(kind);
    if left < n {
        return Err(Refusal::BrokenStep);
    }
    let first = first_count(steps, kind, at);
    let second = second_count(steps, kind, at);
    if left - n < first + second {
        return Err(Refusal::BrokenStep);
    }
    let lists = at + 4 * n;
    Ok(StepAt {
        kind,
        at,
        first,
        second,
        lists,
        end: lists + 4 * (first + second),
    })
}

// ---- a step carried out

// These sizes with so many more nodes, edges, ports and pairs: 9 they pass a limit.
fn grown(z: Sizes, nodes: usize, edges: usize, ports: usize, pairs: usize) -> Result<Sizes, Refusal>
    requires { (z.nodes + nodes < 2 ^ 40) × (z.edges + edges < 2 ^ 40) × (z.ports + ports < 2 ^ 40) × (z.pairs + pairs < 2 ^ 40) }
    ensures { Limited (more z nodes edges ports pairs) result }
{
    let y = Sizes {
        nodes: z.nodes + nodes,
        edges: z.edges + edges,
        ports: z.ports + ports,
        pairs: z.pairs + pairs,
        ..z
    };
    if !form::sizes_fit(form::form2(), y) {
        return Err(Refusal::ResultAboveLimit);
    }
    Ok(y)
}

// The row of 4-byte numbers that begins at a place of the steps.
fn row_at(at: usize) -> Row
    ensures { result ≡ row_at at 4 }
{
    Row { at, width: 4 }
}

// A list of n ids in the steps: 7 one is not below its count, or n.
fn ids_at(steps: &[u8], at: usize, n: usize, count: usize) -> Result<usize, Refusal>
    requires { at + 4 * n ≤ length steps.now }
    ensures { told result ≡ counted (known_all count (numbers 4 n (drop at steps.now))) }
{
    let end = at + 4 * n;
    lists::id_list(&steps[at..end], 4, count)
}

// One more node.
fn new_node(room: &mut [u8], steps: &[u8], at: usize, z: Sizes) -> Result<Sizes, Refusal>
    requires { Sound (words room.old) z × (room_ledger ≤ length room.old) × (at + 4 ≤ length steps.now) }
    ensures { Turned (calls.turn (answered (node_step (number_at 4 steps.now (at)))) (drawing (words room.old) z)) result (words room.new) }
{
    let y = grown(z, 1, 0, 0, 0)?;
    additions::add_node(room, z, le::get4(steps, at));
    Ok(y)
}

// One more edge between nodes that are there.
fn new_edge(room: &mut [u8], steps: &[u8], p: StepAt, z: Sizes) -> Result<Sizes, Refusal>
    requires { Sound (words room.old) z × (room_ledger ≤ length room.old) × Lies steps.now p }
    ensures { Turned (calls.turn (answered (edge_step (number_at 4 steps.now p.at) (numbers 4 p.first (drop p.lists steps.now)) (numbers 4 p.second (drop (p.lists + 4 * p.first) steps.now)))) (drawing (words room.old) z)) result (words room.new) }
{
    let s = ids_at(steps, p.lists, p.first, z.nodes)?;
    let t = ids_at(steps, p.lists + 4 * p.first, p.second, z.nodes)?;
    let y = grown(z, 0, 1, s + t, 0)?;
    additions::add_edge(
        room,
        z,
        le::get4(steps, p.at),
        steps,
        row_at(p.lists),
        0,
        s,
        t,
    );
    Ok(y)
}

// One more edge between new nodes.
fn new_operation(room: &mut [u8], steps: &[u8], p: StepAt, z: Sizes) -> Result<Sizes, Refusal>
    requires { Sound (words room.old) z × (room_ledger ≤ length room.old) × Lies steps.now p }
    ensures { Turned (calls.turn (answered (operation_step (number_at 4 steps.now p.at) (numbers 4 p.first (drop p.lists steps.now)) (numbers 4 p.second (drop (p.lists + 4 * p.first) steps.now)))) (drawing (words room.old) z)) result (words room.new) }
{
    let new = p.first + p.second;
    let y = grown(z, new, 1, new, 0)?;
    additions::add_operation(
        room,
        z,
        le::get4(steps, p.at),
        steps,
        row_at(p.lists),
        p.first,
        p.second,
    );
    Ok(y)
}

// One more pending pair.
fn unify(room: &mut [u8], steps: &[u8], at: usize, z: Sizes) -> Result<Sizes, Refusal>
    requires { Sound (words room.old) z × (room_ledger ≤ length room.old) × (at + 8 ≤ length steps.now) }
    ensures { Turned (calls.turn (answered (pair_step (number_at 4 steps.now (at)) (number_at 4 steps.now (at + 4)))) (drawing (words room.old) z)) result (words room.new) }
{
    let v = le::get4(steps, at);
    let w = le::get4(steps, at + 4);
    lists::known(v, z.nodes)?;
    lists::known(w, z.nodes)?;
    let y = grown(z, 0, 0, 0, 1)?;
    additions::add_pair(room, z, v, w);
    Ok(y)
}

// One more node at the end of an edge's sources.
fn add_edge_source(room: &mut [u8], steps: &[u8], at: usize, z: Sizes) -> Result<Sizes, Refusal>
    requires { Sound (words room.old) z × (room_ledger ≤ length room.old) × (at + 8 ≤ length steps.now) }
    ensures { Turned (calls.turn (answered (source_step (number_at 4 steps.now (at)) (number_at 4 steps.now (at + 4)))) (drawing (words room.old) z)) result (words room.new) }
{
    let edge = lists::known(le::get4(steps, at), z.edges)?;
    let y = grown(z, 1, 0, 1, 0)?;
    additions::add_source(room, z, edge, le::get4(steps, at + 4));
    Ok(y)
}

// One more node at the end of an edge's targets.
fn add_edge_target(room: &mut [u8], steps: &[u8], at: usize, z: Sizes) -> Result<Sizes, Refusal>
    requires { Sound (words room.old) z × (room_ledger ≤ length room.old) × (at + 8 ≤ length steps.now) }
    ensures { Turned (calls.turn (answered (target_step (number_at 4 steps.now (at)) (number_at 4 steps.now (at + 4)))) (drawing (words room.old) z)) result (words room.new) }
{
    let edge = lists::known(le::get4(steps, at), z.edges)?;
    let y = grown(z, 1, 0, 1, 0)?;
    additions::add_target(room, z, edge, le::get4(steps, at + 4));
    Ok(y)
}

// Listed edges go.
fn delete_edges(room: &mut [u8], steps: &[u8], p: StepAt, z: Sizes) -> Result<Sizes, Refusal>
    requires { Sound (words room.old) z × (room_ledger ≤ length room.old) × Lies steps.now p }
    ensures { Turned (calls.turn (answered (without_edges_step (numbers 4 p.first (drop p.lists steps.now)))) (drawing (words room.old) z)) result (words room.new) }
{
    let n = ids_at(steps, p.lists, p.first, z.edges)?;
    Ok(deletions::delete_edges(room, z, steps, row_at(p.lists), n))
}

// Listed nodes go.
fn delete_nodes(room: &mut [u8], steps: &[u8], p: StepAt, z: Sizes) -> Result<Sizes, Refusal>
    requires { Sound (words room.old) z × (room_ledger ≤ length room.old) × Lies steps.now p }
    ensures { Turned (calls.turn (answered (without_nodes_step (numbers 4 p.first (drop p.lists steps.now)))) (drawing (words room.old) z)) result (words room.new) }
{
    let n = ids_at(steps, p.lists, p.first, z.nodes)?;
    Ok(deletions::delete_nodes(room, z, steps, row_at(p.lists), n))
}

// A step carried out in the room: 7 an id not below its count, 9 a limit passed; else the sizes of the new graph.
fn turn(room: &mut [u8], steps: &[u8], p: StepAt, z: Sizes) -> Result<Sizes, Refusal>
    requires { Sound (words room.old) z × (room_ledger ≤ length room.old) × ((place : ℕ) × StepThere steps.now place p) }
    ensures { Turned (calls.turn (answered (step_in steps.now p)) (drawing (words room.old) z)) result (words room.new) }
{
    match p.kind {
        Kind::NewNode => new_node(room, steps, p.at, z),
        Kind::NewEdge => new_edge(room, steps, p, z),
        Kind::NewOperation => new_operation(room, steps, p, z),
        Kind::Unify => unify(room, steps, p.at, z),
        Kind::AddEdgeSource => add_edge_source(room, steps, p.at, z),
        Kind::AddEdgeTarget => add_edge_target(room, steps, p.at, z),
        Kind::DeleteEdges => delete_edges(room, steps, p, z),
        Kind::DeleteNodes => delete_nodes(room, steps, p, z),
    }
}

// All steps, one after the other.
fn turns(room: &mut [u8], steps: &[u8], start: Sizes) -> Result<Sizes, Stop>
    requires { Sound (words room.old) start × (room_ledger ≤ length room.old) }
    ensures { Leads (calls.turns 0 (steps_in steps.now) (drawing (words room.old) start)) result (words room.new) }
{
    let mut z = start;
    let mut at: usize = 0;
    let mut index: usize = 0;
    while at < steps.len() {
        // Not `map_err(..)?`: tried, and what its closure gives could not be read out of the `Err` in the proof.
        let p = match step_at(steps, at) {
            Ok(p) => p,
            Err(refusal) => return Err(Stop { index, refusal }),
        };
        z = match turn(room, steps, p, z) {
            Ok(y) => y,
            Err(refusal) => return Err(Stop { index, refusal }),
        };
        at = p.end;
        index += 1;
    }
    Ok(z)
}

// The graph that the steps one by one would give.
pub fn build(src: &[u8], steps: &[u8], out: &mut [u8], room: &mut [u8]) -> Result<Done, Stop>
    ensures { GivesBuilt (build_call src.now steps.now (length out.old) (length room.old)) result out.old out.new }
{
    lists::work_room(room.len(), ROOM_BUILD)?;
    let drawing = read::read(src)?;
    additions::load(room, drawing);
    let last = turns(room, steps, drawing.sizes)?;
    let y = write::sized(last);
    let bytes = write::result_size(y, out.len())?;
    grouping::link(room, y);
    grouping::put_drawing(out, y, room);
    Ok(Done { a: bytes, b: 0 })
}
