// What the programs read, from any reader: a whole input, or a part of one.
#![tactic(auto)]

ghost use Rattle.std.specs.Prelude.{◌≡◌, ◌<◌, ◌≤◌, length, take, IfOk, IfSome, MatchOption};
ghost use Rattle.std.specs.Io.{ReadsAtMost};
ghost use Rattle.std.specs.Io.KnownBytes.{Consumes, IsAtEnd};

use std::io;
use std::io::Read;

// How many bytes an image, a table or a lent buffer has at most.
pub const LONGEST: usize = 65536;

// So many zeros.
pub fn buffer() -> [u8; LONGEST]
    ensures { 65536 ≡ length result }
{
    [0; LONGEST]
}

// Reads until `buf` is full or the input ends, and answers how many bytes it put at the start of `buf`. Of an empty `buf` it reads nothing.
pub fn read_full<R: Read>(reader: &mut R, buf: &mut [u8]) -> io::Result<usize>
    ensures in_bounds { ReadsAtMost result buf.new }
    ensures bytes { IfOk result (λ n. Consumes (R.remaining reader.old) (R.remaining reader.new) (take n buf.new)) }
    ensures end { IfOk result (λ n. n < length buf.new → IsAtEnd (R.remaining reader.new)) }
{
    let mut done = 0;
    while done < buf.len() {
        let n = reader.read(&mut buf[done..])?;
        if n == 0 {
            break;
        }
        done += n;
    }
    Ok(done)
}

// The length of the whole input, which then stands at the start of `buf`; nothing where the input is longer than `buf`.
pub fn read_whole<R: Read>(reader: &mut R, buf: &mut [u8]) -> io::Result<Option<usize>>
    ensures in_bounds { IfOk result (λ r. IfSome r (λ n. n ≤ length buf.new)) }
    ensures whole { IfOk result (λ r. IfSome (R.remaining reader.old) (λ xs. MatchOption r (length buf.new < length xs) (λ n. take n buf.new ≡ xs))) }
{
    let n = read_full(reader, buf)?;
    let mut more = [0u8; 1];
    if read_full(reader, &mut more)? > 0 {
        return Ok(None);
    }
    Ok(Some(n))
}
