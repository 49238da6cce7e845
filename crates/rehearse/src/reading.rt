// Standard input, read to its end or to the end of the bytes that it may fill.

ghost use Rattle.std.specs.Prelude.{length, take, ◌≡◌, ◌≤◌, ◌<◌, IfOk};
ghost use Rattle.std.specs.Io.KnownBytes.{Consumes, IsAtEnd};
ghost use Rattle.rehearse.specs.Reading.{turn_of};

use std::io;
use std::io::Read;

// How many bytes were read. The runtime's reader makes one call of `read` each time and repeats none, so one that a signal
// interrupts counts as failed, and std's `read_to_end`, which repeats it and fills a heap, does not serve. What is read so far is
// counted, since it is the answer: a slice that gets shorter would have to be subtracted in the end.
pub fn standard_input<R: Read>(input: &mut R, bytes: &mut [u8]) -> io::Result<usize>
    ensures within { IfOk result (λ n. n ≤ length bytes.new) }
    ensures consumed { IfOk result (λ n.
        Consumes (R.remaining input.old) (R.remaining input.new) (take n bytes.new)) }
    ensures end { IfOk result (λ n. n < length bytes.new → IsAtEnd (R.remaining input.new)) }
{
    let mut done: usize = 0;
    while done < bytes.len() {
        let got = input.read(&mut bytes[done..]);
        let Some(more) = came_to(got, &bytes[done..])? else {
            break;
        };
        done += more;
    }
    Ok(done)
}

// A read that fails is no end of the input.
fn came_to(got: io::Result<usize>, rest: &[u8]) -> io::Result<Option<usize>>
    ensures { result ≡ turn_of got (length rest.now) }
{
    let count = got?;
    if count == 0 {
        return Ok(None);
    }
    Ok(Some(count.min(rest.len())))
}
