// What a program begins with: standard input, or any other reader, read into a buffer of a fixed size.
#![tactic(auto)]

ghost use Rattle.std.specs.Prelude.{◌≡◌, ℕ, ◌≤◌, ◌<◌, IfOk, OnErr, length, take};
ghost use Rattle.std.specs.Io.KnownBytes.{Consumes, IsAtEnd};

use std::io;
use std::io::Read;

// Reads until the buffer is full or the input ends, and returns how many bytes that were. The buffer keeps its
// length. Of a reader whose bytes are known, those in front of the buffer are what it had first, and a buffer that
// is not full has all of them; where a read fails, what the reader has lost before stands there too.
pub fn read_full<R: Read>(input: &mut R, buffer: &mut [u8]) -> io::Result<usize>
    ensures count { IfOk result (λ n. n ≤ length buffer.new) }
    ensures length { length buffer.new ≡ length buffer.old }
    ensures bytes { IfOk result (λ n. Consumes (R.remaining input.old) (R.remaining input.new) (take n buffer.new)) }
    ensures end { IfOk result (λ n. n < length buffer.new → IsAtEnd (R.remaining input.new)) }
    ensures err { OnErr result ((n : ℕ) × (n ≤ length buffer.new) × Consumes (R.remaining input.old) (R.remaining input.new) (take n buffer.new)) }
{
    let mut done = 0;
    while done < buffer.len() {
        let n = input.read(&mut buffer[done..])?;
        if n == 0 {
            break;
        }
        done += n;
    }
    Ok(done)
}

#[cfg(test)]
mod tests {
    use super::*;

    // Gives a few bytes in each read, and may fail when it has none left.
    #[derive(Drop)]
    struct Trickle<'a> {
        rest: &'a [u8],
        most: usize,
        fails: bool,
    }

    impl<'a> Read for Trickle<'a> {
        fn read(&mut self, buf: &mut [u8]) -> io::Result<usize> {
            if self.fails && self.rest.is_empty() {
                return Err(io::Error::from(io::ErrorKind::BrokenPipe));
            }
            let few = self.most.min(buf.len());
            self.rest.read(&mut buf[..few])
        }
    }

    #[test]
    fn reads_what_there_is(rt: HostRuntime) {
        let mut file: &[u8] = b"wheat";
        let mut buffer = [7; 8];
        assert_eq!(rt; read_full(&mut file, &mut buffer).ok(), Some(5));
        assert_eq!(rt; &buffer, b"wheat\x07\x07\x07");
        assert_eq!(rt; file.len(), 0);
    }

    #[test]
    fn reads_until_the_buffer_is_full(rt: HostRuntime) {
        let mut file: &[u8] = b"winter wheat";
        let mut buffer = [7; 6];
        assert_eq!(rt; read_full(&mut file, &mut buffer).ok(), Some(6));
        assert_eq!(rt; &buffer, b"winter");
        assert_eq!(rt; file, b" wheat".as_slice());
    }

    #[test]
    fn goes_on_after_a_short_read(rt: HostRuntime) {
        let mut input = Trickle {
            rest: b"winter wheat",
            most: 5,
            fails: false,
        };
        let mut buffer = [7; 16];
        assert_eq!(rt; read_full(&mut input, &mut buffer).ok(), Some(12));
        assert_eq!(rt; &buffer[..12], b"winter wheat".as_slice());
    }

    #[test]
    fn hands_up_an_error_in_mid_stream(rt: HostRuntime) {
        let mut input = Trickle {
            rest: b"winter",
            most: 4,
            fails: true,
        };
        let mut buffer = [7; 8];
        let answer = read_full(&mut input, &mut buffer);
        assert_eq!(rt;
            answer.map_err(|e| e.kind()),
            Err(io::ErrorKind::BrokenPipe)
        );
        assert_eq!(rt; &buffer[..6], b"winter".as_slice());
    }
}
