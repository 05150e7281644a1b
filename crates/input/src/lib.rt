// Reads all of an input that a lent slice has room for, over any reader.
#![tactic(auto)]

ghost use Rattle.std.specs.Prelude.{ℕ, ◌≤◌, ◌<◌, List, IfOk, OnErr, length, take};
ghost use Rattle.std.specs.Io.KnownBytes.{Consumes, IsAtEnd};

use std::io;
use std::io::Read;

// Reads until `buf` is full or the input ends, and says how many bytes it put at the start of `buf`. On an `Err` some may be read, and `buf` holds any bytes.
pub fn read_full<R: Read>(reader: &mut R, buf: &mut [u8]) -> io::Result<usize>
    ensures bound { IfOk result (λ n. n ≤ length buf.new) }
    ensures bytes { IfOk result (λ n. Consumes (R.remaining reader.old) (R.remaining reader.new) (take n buf.new)) }
    ensures end { IfOk result (λ n. n < length buf.new → IsAtEnd (R.remaining reader.new)) }
    ensures err { OnErr result ((bs : List ℕ) × Consumes (R.remaining reader.old) (R.remaining reader.new) bs × (length bs < length buf.new)) }
{
    let mut done = 0;
    // `read_exact` loses the count where the input ends early, and `read_to_end` needs a heap.
    while done < buf.len() {
        let n = reader.read(&mut buf[done..])?;
        if n == 0 {
            break;
        }
        done += n;
    }
    Ok(done)
}

#[cfg(test)]
mod tests {
    use super::*;
    use std::io::ErrorKind;

    // One byte a read, and an error once there is no more.
    #[derive(Drop)]
    struct Broken {
        left: u8,
    }

    impl Read for Broken {
        fn read(&mut self, buf: &mut [u8]) -> io::Result<usize> {
            if (self.left == 0) | (buf.len() == 0) {
                return Err(io::Error::from(ErrorKind::BrokenPipe));
            }
            self.left -= 1;
            buf[0] = self.left;
            Ok(1)
        }
    }

    #[test]
    fn shorter_than_the_room(rt: HostRuntime) -> io::Result<()> {
        let mut reader = b"abc".as_slice();
        let mut buf = [0u8; 5];
        assert_eq!(rt; read_full(&mut reader, &mut buf)?, 3);
        assert_eq!(rt; buf, [b'a', b'b', b'c', 0, 0]);
        Ok(())
    }

    #[test]
    fn longer_than_the_room(rt: HostRuntime) -> io::Result<()> {
        let mut reader = b"abc".as_slice();
        let mut buf = [0u8; 2];
        assert_eq!(rt; read_full(&mut reader, &mut buf)?, 2);
        assert_eq!(rt; buf, *b"ab");
        assert_eq!(rt; reader, b"c".as_slice());
        Ok(())
    }

    #[test]
    fn an_error_is_passed_on(rt: HostRuntime) -> io::Result<()> {
        let mut reader = Broken { left: 3 };
        let mut buf = [0u8; 3];
        assert_eq!(rt; read_full(&mut reader, &mut buf)?, 3);
        assert_eq!(rt; buf, [2, 1, 0]);
        let failed = read_full(&mut Broken { left: 2 }, &mut buf);
        assert!(rt; failed.is_err());
        Ok(())
    }
}
