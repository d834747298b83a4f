// The edges of a stored form, one after the other, with refusals 5 and 4; and the place of the first id that is no node's.
#![tactic(auto)]

ghost use Rattle.std.specs.Prelude.{◌≡◌, ℕ, ◌+◌, ◌*◌, ◌<◌, ◌≤◌, ◌^◌, List, Err, length, drop};
ghost use Rattle.le.specs.Le.{number_at};
ghost use Rattle.le.specs.Rows.{row_at, Holds};
ghost use Rattle.graph.specs.Graph.{Usable};
ghost use Rattle.graph.specs.Read.{read_edge, read_edges};
ghost use Rattle.form.specs.Form.{meant, meant_by};
ghost use Rattle.edges.specs.Steps.{edge_step, edges_step, count_over, meant_stop, settled, CountsThere};
ghost use Rattle.edges.specs.Walk.{Spans, bad_place};

use form::{Format, Refusal};
use lists::{first_bad, number_at};
use reader::ids_at;

// How many entries the edge at a place has: its source count and its target count, in the smaller width read as one number.
pub fn ports_at(s: &[u8], at: usize, width: usize) -> usize
    requires { Holds s.now (row_at at width) 2 }
    ensures { (result ≡ number_at width s.now at + number_at width s.now (at + width)) × (result < 2 ^ 33) }
{
    if width == 2 {
        let both = le::get4(s, at) as usize;
        both % 65536 + both / 65536
    } else {
        le::get4(s, at) as usize + le::get4(s, at + 4) as usize
    }
}

// Where reading stands after an edge or several: the port sum, the next place, and how far the ids reach.
#[derive(Clone, Copy)]
pub struct Reached {
    pub ports: usize,
    pub at: usize,
    pub bound: usize,
}

// Why reading ends at an edge: with it the port sum, which is told here, passes its limit; or the refusal.
#[derive(Clone, Copy)]
pub enum Stop {
    Over { at: usize, ports: usize },
    Refused(Refusal),
}

// One edge, after edges of this port sum whose ids reach so far. 5 its two counts are not wholly there, 4 the port sum passes its limit,
// 5 its ids are not all there. Which of the two counts passes the limit is not asked here: asked in the loop over the edges it would slow down every edge.
fn read_edge(s: &[u8], f: Format, at: usize, sum: usize, bound: usize) -> Result<Reached, Stop>
    requires { (at ≤ length s.now) × (sum ≤ f.ports) × Usable (meant f) }
    ensures { CountsThere f.width s.now result
        × ((label : ℕ) → settled (meant f) s.now result ≡ edge_step (length s.now) sum bound (read_edge (meant f) (length s.now) sum label (drop at s.now))) }
{
    let width = f.width;
    let limit = f.ports;
    let left = s.len() - at;
    if left < 2 * width {
        return Err(Stop::Refused(Refusal::WrongLength(s.len())));
    }
    let n = ports_at(s, at, width);
    let ports = sum + n;
    let rest = left - 2 * width;
    let bytes = n * width;
    if limit < ports {
        return Err(Stop::Over { at, ports });
    }
    if rest < bytes {
        return Err(Stop::Refused(Refusal::WrongLength(s.len())));
    }
    let ids = ids_at(s, at + 2 * width, n, width, bound);
    Ok(Reached {
        ports,
        at: ids.end,
        bound: ids.bound,
    })
}

// The place of the count with which the edge at a place passes the limit of ports: this is the sum with both of its counts.
pub fn count_over(s: &[u8], at: usize, ports: usize, width: usize, limit: usize) -> usize
    requires { Holds s.now (row_at at width) 2 × (limit < 2 ^ 32) }
    ensures { result ≡ count_over width limit s.now at ports }
{
    if limit + number_at(s, at + width, width) < ports {
        return at;
    }
    at + width
}

// The refusal that is meant where reading ends at an edge.
pub fn refusal_at(s: &[u8], f: Format, stop: Stop) -> Refusal
    requires { CountsThere f.width s.now (Err stop) × Usable (meant f) }
    ensures { meant_by result ≡ meant_stop (meant f) s.now stop }
{
    match stop {
        Stop::Over { at, ports } => {
            Refusal::AboveLimit(count_over(s, at, ports, f.width, f.ports))
        }
        Stop::Refused(refusal) => refusal,
    }
}

// As many edges as the header says, one after the other.
pub fn read_edges(s: &[u8], f: Format, start: usize, edges: usize) -> Result<Reached, Stop>
    requires { (start ≤ length s.now) × Usable (meant f) }
    ensures { CountsThere f.width s.now result
        × ((labels : List ℕ) → length labels ≡ edges → settled (meant f) s.now result ≡ edges_step (length s.now) (read_edges (meant f) (length s.now) 0 labels (drop start s.now))) }
{
    let mut reached = Reached {
        ports: 0,
        at: start,
        bound: 0,
    };
    for i in 0..edges {
        reached = read_edge(s, f, reached.at, reached.ports, reached.bound)?;
    }
    Ok(reached)
}

// The place of the first id not below the bound, where there is one: among those of so many edges from `start` on, else among so many ids from `lists` on.
pub fn bad_place(
    s: &[u8],
    start: usize,
    edges: usize,
    lists: usize,
    ids: usize,
    width: usize,
    bound: usize,
) -> usize
    requires { Holds s.now (row_at lists width) ids × Spans width s.now start edges lists }
    ensures { result ≡ bad_place width bound s.now start edges ids }
{
    let mut at = start;
    for i in 0..edges {
        let n = ports_at(s, at, width);
        let first = at + 2 * width;
        let k = first_bad(s, first, n, width, bound);
        if k < n {
            return first + k * width;
        }
        at = first + n * width;
    }
    lists + first_bad(s, lists, ids, width, bound) * width
}
