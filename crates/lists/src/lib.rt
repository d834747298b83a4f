// Ids where they stand in bytes: how far those of a row reach, and which is the first that is not below a bound. Above them the checks that calls make of
// their lists and numbers (7, 8, 10).
#![tactic(auto)]

ghost use Rattle.std.specs.Prelude.{◌≡◌, ◌+◌, ◌<◌, ◌^◌, max, leb, length, drop};
ghost use Rattle.le.specs.Le.{Wide, numbers, number_at};
ghost use Rattle.le.specs.Rows.{row_at, Holds, span};
ghost use Rattle.graph.specs.Lists.{first_bad};
ghost use Rattle.graph.specs.Graph as graph;
ghost use Rattle.graph.specs.Graph.{Graph};
ghost use Rattle.graph.specs.Answer.{refusal, ◌else◌};
ghost use Rattle.graph.specs.Calls as calls;
ghost use Rattle.graph.specs.Calls.{id_list, label_list};
ghost use Rattle.form.specs.Form.{told, counted, tested};
ghost use Rattle.lists.specs.Reach.{reach, highest};

use form::{Refusal, Sizes};
use le::Row;

// The count or id at a place.
pub fn number_at(s: &[u8], at: usize, width: usize) -> usize
    requires { Holds s.now (row_at at width) 1 }
    ensures { (result ≡ number_at width s.now at) × (result < 2 ^ 32) }
{
    le::number(s, Row { at, width }, 0)
}

// The highest of the n ids from `at` on, 0 where there is none. Each is looked at once and nothing is decided here.
fn highest_of(s: &[u8], at: usize, n: usize, width: usize) -> u32
    requires { Holds s.now (row_at at width) n }
    ensures { result ≡ highest (span s.now (row_at at width) 0 n) }
{
    let end = at + n * width;
    let mut most: u32 = 0;
    let mut place = at;
    while place < end {
        let id = number_at(s, place, width);
        most = most.max(id as u32);
        place += width;
    }
    most
}

// The least bound that is above each of the n ids from `at` on and not below another bound.
pub fn reach_of(s: &[u8], at: usize, n: usize, width: usize, bound: usize) -> usize
    requires { Holds s.now (row_at at width) n }
    ensures { result ≡ max bound (reach (numbers width n (drop at s.now))) }
{
    if n == 0 {
        return bound;
    }
    let most = highest_of(s, at, n, width) as usize;
    bound.max(most + 1)
}

// The index of the first of the n ids from `at` on that is not below the bound; n where there is none.
pub fn first_bad(s: &[u8], at: usize, n: usize, width: usize, bound: usize) -> usize
    requires { Holds s.now (row_at at width) n }
    ensures { result ≡ first_bad bound (numbers width n (drop at s.now)) }
{
    for k in 0..n {
        if bound <= number_at(s, at + k * width, width) {
            return k;
        }
    }
    n
}

// A list of ids of this width: 7 a broken entry at its end, or an id not below the count; or how many ids it has.
pub fn id_list(ids: &[u8], width: usize, count: usize) -> Result<usize, Refusal>
    requires { Wide width }
    ensures { (f : graph.Format) → f.width ≡ width → told result ≡ counted (id_list f count ids.now) }
{
    let n = ids.len() / width;
    if ids.len() % width != 0 {
        return Err(Refusal::BadEntry(n));
    }
    if count < reach_of(ids, 0, n, width, 0) {
        return Err(Refusal::BadEntry(first_bad(ids, 0, n, width, count)));
    }
    Ok(n)
}

// A list of labels: 7 a broken entry at its end, or how many labels it has.
pub fn label_list(labels: &[u8]) -> Result<usize, Refusal>
    ensures { told result ≡ counted (label_list labels.now) }
{
    let n = labels.len() / 4;
    if labels.len() % 4 != 0 {
        return Err(Refusal::BadEntry(n));
    }
    Ok(n)
}

// A single id: 7 it is not below the count, or the id.
pub fn known(id: u32, count: usize) -> Result<usize, Refusal>
    ensures { told result ≡ calls.known count id }
{
    if count <= id as usize {
        return Err(Refusal::BadEntry(0));
    }
    Ok(id as usize)
}

// The pairs of a graph of these sizes: 8 one is pending.
pub fn unpaired(z: Sizes) -> Result<(), Refusal>
    ensures { (g : Graph) → length g.pairs ≡ z.pairs → told result ≡ tested (calls.unpaired g) }
{
    if z.pairs != 0 {
        return Err(Refusal::PairPending);
    }
    Ok(())
}

// The work room lent: 10 it is shorter than the call needs.
pub fn work_room(lent: usize, needed: usize) -> Result<(), Refusal>
    ensures { told result ≡ tested (leb needed lent else refusal 10) }
{
    if lent < needed {
        return Err(Refusal::NoRoom);
    }
    Ok(())
}
