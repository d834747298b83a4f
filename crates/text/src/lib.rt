// What the programs share: texts put into lent bytes one after the other, and reading as much of the input as a buffer holds. Each function that puts something answers the place after it,
// and bounds it so that the next one has room: a number takes at most 20 bytes.
#![tactic(auto)]

ghost use Rattle.std.specs.Prelude.{◌≡◌, [], ◌++◌, ◌+◌, ◌<◌, ◌≤◌, length, take, true, Some, IfOk};
ghost use Rattle.std.specs.Io.KnownBytes.{Consumes, IsAtEnd};
ghost use Rattle.io.specs.Counts.{IsPrefixLen};
ghost use Rattle.form.specs.Form.{meant_by};
ghost use Rattle.text.specs.Text.{Printed, decimal, refused_line};

use form::Refusal;
use std::io::Read;

// Bytes as they are.
pub fn put_text(out: &mut [u8], at: usize, text: &[u8]) -> usize
    requires { at + length text.now ≤ length out.old }
    ensures { Printed out.old at text.now out.new result }
{
    le::copy(out, at, text, 0, text.len());
    at + text.len()
}

// A number in decimal.
pub fn put_number(out: &mut [u8], at: usize, n: usize) -> usize
    requires { at + 20 ≤ length out.old }
    ensures printed { Printed out.old at (decimal n) out.new result }
    ensures upper_bound { result ≤ at + 20 }
{
    let mut digits = [0u8; 20];
    let k = io::decimal(n as u64, &mut digits);
    put_text(out, at, &digits[..k])
}

// A word and a number.
pub fn put_field(out: &mut [u8], at: usize, word: &[u8], n: usize) -> usize
    requires { at + length word.now + 20 ≤ length out.old }
    ensures printed { Printed out.old at (word.now ++ decimal n) out.new result }
    ensures upper_bound { result ≤ at + length word.now + 20 }
{
    let next = put_text(out, at, word);
    put_number(out, next, n)
}

// A refusal told by its number, as the one line of a program's output.
pub fn put_refused(out: &mut [u8], no: u32) -> usize
    requires { 29 ≤ length out.old }
    ensures printed { Printed out.old 0 (refused_line no) out.new result }
    ensures prefix_len { IsPrefixLen result out.new }
{
    let next = put_field(out, 0, b"refused ", no as usize);
    put_text(out, next, b"\n")
}

// A refusal as the one line of a program's output.
pub fn put_refusal(out: &mut [u8], x: Refusal) -> usize
    requires { 29 ≤ length out.old }
    ensures printed { Printed out.old 0 (refused_line (meant_by x).no) out.new result }
    ensures prefix_len { IsPrefixLen result out.new }
{
    put_refused(out, x.number())
}

// Reads until buf is full or the input ends, and answers how many bytes it put at the start of buf: the next ones of the input, and where they are fewer than buf holds, its last ones.
// A read that fails, and one that a signal interrupts, ends it with the error.
pub fn read_full<R: Read>(input: &mut R, buf: &mut [u8]) -> std::io::Result<usize>
    ensures prefix_len { IfOk result (λ n. IsPrefixLen n buf.new) }
    ensures bytes { IfOk result (λ n. Consumes (R.remaining input.old) (R.remaining input.new) (take n buf.new)) }
    ensures ended { IfOk result (λ n. n < length buf.new → IsAtEnd (R.remaining input.new)) }
{
    let mut done = 0;
    while done < buf.len() {
        let n = input.read(&mut buf[done..])?;
        if n == 0 {
            return Ok(done);
        }
        done += n;
    }
    Ok(done)
}

// Whether the input has ended. Where it has not, a byte of it is gone.
pub fn is_ended<R: Read>(input: &mut R) -> std::io::Result<bool>
    ensures ended { IfOk result (λ ended. ended ≡ true → IsAtEnd (R.remaining input.new)) }
    ensures told { IfOk result (λ ended. R.remaining input.old ≡ Some [] → ended ≡ true) }
{
    let mut spare = [0u8; 1];
    let n = input.read(&mut spare)?;
    Ok(n == 0)
}
