// A reader: the stored bytes and the place it has reached. Each function over it is thin: it calls the cursor function on the bytes and the place, where there is
// something to look at, and moves the place past what it read. The borrow checker covers none of them, so each is proved by hand. The functions below them take
// plain bytes and numbers: whoever calls one knows nothing of a reader.
#![tactic(auto)]

ghost use Rattle.std.specs.Prelude.{◌≡◌, ◌+◌, ◌*◌, ◌<◌, ◌≤◌, ◌^◌, max, length, drop};
ghost use Rattle.le.specs.Le.{numbers, number_at};
ghost use Rattle.le.specs.Rows.{row_at, Holds};
ghost use Rattle.graph.specs.Graph as graph;
ghost use Rattle.graph.specs.Read.{counts_at};
ghost use Rattle.form.specs.Form.{sized};
ghost use Rattle.reader.specs.Past.{past};
ghost use Rattle.lists.specs.Reach.{reach};

use form::Sizes;
use lists::{number_at, reach_of};

#[derive(Clone, Copy)]
pub struct Reader<'a> {
    pub src: &'a [u8],
    pub at: usize,
}

impl<'a> Reader<'a> {
    // A reader that begins at a place.
    fn new(src: &'a [u8], at: usize) -> Reader<'a>
        ensures { (result.src ≡ src.entry) × (result.at ≡ at) }
    {
        Reader { src, at }
    }

    // A count of this width.
    fn count(&mut self, width: usize) -> usize
        requires { Holds self.old.src.now (row_at self.old.at width) 1 }
        ensures { (result ≡ number_at width self.old.src.now self.old.at) × (result < 2 ^ 32)
            × (self.new ≡ past width self.old) }
    {
        let n = number_at(self.src, self.at, width);
        self.at += width;
        n
    }

    // So many labels. Whatever stands in 4 bytes is a label, so none is looked at.
    fn labels(&mut self, n: usize)
        requires { self.old.at + n * 4 ≤ length self.old.src.now }
        ensures { self.new ≡ past (n * 4) self.old }
    {
        self.at += n * 4;
    }

    // So many ids of this width: the least bound that is above each of them and not below another bound.
    fn ids(&mut self, n: usize, width: usize, bound: usize) -> usize
        requires { Holds self.old.src.now (row_at self.old.at width) n }
        ensures { (result ≡ max bound (reach (numbers width n (drop self.old.at self.old.src.now))))
            × (self.new ≡ past (n * width) self.old) }
    {
        let most = reach_of(self.src, self.at, n, width, bound);
        self.at += n * width;
        most
    }
}

// The five counts of a header in this width.
pub fn counts_at(s: &[u8], width: usize) -> Sizes
    requires { Holds s.now (row_at 5 width) 5 }
    ensures { (f : graph.Format) → f.width ≡ width → result ≡ sized width (counts_at f s.now) 0 }
{
    let mut r = Reader::new(s, 5);
    let nodes = r.count(width);
    let edges = r.count(width);
    let sources = r.count(width);
    let targets = r.count(width);
    let pairs = r.count(width);
    Sizes {
        width,
        nodes,
        edges,
        ports: 0,
        sources,
        targets,
        pairs,
    }
}

// The place after so many labels from a place on.
pub fn labels_end(s: &[u8], at: usize, n: usize) -> usize
    requires { at + n * 4 ≤ length s.now }
    ensures { result ≡ at + n * 4 }
{
    let mut r = Reader::new(s, at);
    r.labels(n);
    r.at
}

// Ids that were read: the place after them, and how far they reach.
#[derive(Clone, Copy)]
pub struct Ids {
    pub end: usize,
    pub bound: usize,
}

// So many ids of this width from a place on, after ids that reach so far.
pub fn ids_at(s: &[u8], at: usize, n: usize, width: usize, bound: usize) -> Ids
    requires { Holds s.now (row_at at width) n }
    ensures { (result.end ≡ at + n * width) × (result.bound ≡ max bound (reach (numbers width n (drop at s.now)))) }
{
    let mut r = Reader::new(s, at);
    let most = r.ids(n, width, bound);
    Ids {
        end: r.at,
        bound: most,
    }
}
