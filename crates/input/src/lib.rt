// Reads the programs' input into a buffer of fixed size.
#![tactic(auto)]

ghost use Rattle.input.specs.Filled.{Fills};

use std::io;
use std::io::Read;

// Reads until the buffer is full or the input ends, and returns how many bytes came to its front. The first read that fails ends it.
pub fn fill<R: Read>(reader: &mut R, buffer: &mut [u8]) -> io::Result<usize>
    ensures { Fills (R.remaining reader.old) (R.remaining reader.new) result buffer.new }
{
    let mut filled = 0;
    // A loop by hand: std fills only whole buffers (`read_exact`) or the heap (`read_to_end`), and of a copy to a slice it says no byte.
    while filled < buffer.len() {
        match reader.read(&mut buffer[filled..])? {
            0 => break,
            more => filled += more,
        }
    }
    Ok(filled)
}

#[cfg(test)]
mod tests {
    use super::*;
    use std::test::Fail;

    // A reader whose every read fails.
    #[derive(Drop)]
    struct Broken;

    impl Read for Broken {
        fn read(&mut self, _buf: &mut [u8]) -> io::Result<usize> {
            Err(io::Error::from(io::ErrorKind::Other))
        }
    }

    #[test]
    fn goes_on_after_a_short_read(rt: HostRuntime) -> Result<(), Fail> {
        let mut reader = b"ab".as_slice().chain(b"cde".as_slice());
        let mut buffer = [0u8; 4];
        assert_eq!(rt; fill(&mut reader, &mut buffer)?, 4);
        assert_eq!(rt; buffer.as_slice(), b"abcd".as_slice());
        assert_eq!(rt; fill(&mut reader, &mut buffer)?, 1);
        assert_eq!(rt; buffer[0], b'e');
        assert_eq!(rt; fill(&mut reader, &mut buffer)?, 0);
        Ok(())
    }

    #[test]
    fn reads_nothing_into_no_room(rt: HostRuntime) -> Result<(), Fail> {
        let mut reader = b"ab".as_slice();
        assert_eq!(rt; fill(&mut reader, &mut [])?, 0);
        assert_eq!(rt; reader, b"ab".as_slice());
        Ok(())
    }

    #[test]
    fn fails_at_a_later_read(rt: HostRuntime) {
        let mut reader = b"ab".as_slice().chain(Broken);
        let mut buffer = [0u8; 4];
        assert!(rt; fill(&mut reader, &mut buffer).is_err());
        assert_eq!(rt; buffer[0], b'a');
        assert_eq!(rt; buffer[1], b'b');
    }

    // A full buffer is not read into: that the next read would fail does not show.
    #[test]
    fn stops_when_full(rt: HostRuntime) -> Result<(), Fail> {
        let mut reader = b"ab".as_slice().chain(Broken);
        let mut buffer = [0u8; 2];
        assert_eq!(rt; fill(&mut reader, &mut buffer)?, 2);
        Ok(())
    }
}
