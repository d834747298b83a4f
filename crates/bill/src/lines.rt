// The bill, put into lent bytes line by line.
ghost use Rattle.std.specs.Prelude.{◌≤◌, length};
ghost use Rattle.io.specs.Counts.{IsPrefixLen};
ghost use Rattle.amounts.specs.Amounts.{Counters};
ghost use Rattle.text.specs.Text.{Printed};
ghost use Rattle.bill.specs.Bill.{list_text, bill_room};

use amounts::{put_amount, put_buffers, put_kinds};
use parts::Bill;
use text::put_text;

// The whole list.
pub fn put_list(out: &mut [u8], list: Bill) -> usize
    requires { Counters list.counts × (bill_room ≤ length out.old) }
    ensures printed { Printed out.old 0 (list_text list.counts list.buffers list.total) out.new result }
    ensures prefix_len { IsPrefixLen result out.new }
{
    let kinds = put_kinds(out, 0, &list.counts);
    let lines = put_buffers(out, kinds, list.buffers);
    let total = put_text(out, lines, b"total ");
    let costs = put_amount(out, total, list.total);
    put_text(out, costs, b"\n")
}
