// Reading the input that a program is given.
ghost use Rattle.std.specs.Prelude.{◌≤◌, length, IfOk, vec_len};

use std::alloc::Global;
use std::io;
use std::io::Read;

// Fills the buffer from its start, and says how far the input went. By a loop, since the library fills no lent buffer from an
// input that may end before it.
pub fn fill<R: Read>(input: &mut R, buffer: &mut [u8]) -> io::Result<usize>
    ensures { IfOk result (λ n. n ≤ length buffer.old) }
{
    let mut len = 0;
    while len < buffer.len() {
        let more = input.read(&mut buffer[len..])?;
        if more == 0 {
            break;
        }
        len += more;
    }
    Ok(len)
}

// Reads the input to its end, but no further than `most` bytes. The memory grows with what is read, so `most` may be far more
// than there is memory for. But `read_to_end` asks for little at a time: of an input that comes in messages, what a read has
// no room for is lost.
pub fn read_all<R: Read>(alloc: Global, input: &mut R, most: usize) -> io::Result<Vec<u8>>
    ensures { IfOk result (λ bytes. vec_len bytes ≤ most) }
{
    let mut bytes = Vec::new(alloc);
    input.take(most as u64).read_to_end(&mut bytes)?;
    // `take` promises nothing of the length where it is not known what the input holds.
    bytes.truncate(most);
    Ok(bytes)
}

// The same into one buffer of `most` bytes that is made before anything is read: no message loses bytes within the limit.
pub fn read_reserved<R: Read>(alloc: Global, input: &mut R, most: usize) -> anyhow::Result<Vec<u8>>
    ensures { IfOk result (λ bytes. vec_len bytes ≤ most) }
{
    let mut bytes = vec![in alloc; 0; most]?;
    let len = fill(input, &mut bytes)?;
    bytes.truncate(len);
    Ok(bytes)
}
