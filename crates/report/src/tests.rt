use super::input::{read_all, read_reserved};
use super::{Line, text};
use cluster::outcome::Outcome;
use order::event::Event;
use station::faults::Taken;
use std::io;
use std::io::Read;
use std::test::Fail;

#[test]
fn a_line_as_text(rt: HostRuntime) -> Result<(), Fail> {
    let line = Line {
        event: Event { post: 3, number: 1 },
        taken: Taken {
            outcome: Outcome::Merged,
            entries: 2,
        },
    };
    assert_eq!(rt; text(rt.alloc(), line)?.as_str(), "3 1 merged 2");
    Ok(())
}

#[test]
fn input_to_a_limit(rt: HostRuntime) -> Result<(), Fail> {
    for (most, read) in [(0, 0), (2, 2), (3, 3), (4, 3)] {
        let mut input: &[u8] = &[1, 2, 3];
        let bytes = read_reserved(rt.alloc(), &mut input, most)?;
        assert_eq!(rt; bytes.as_slice(), &[1, 2, 3][..read]);
    }
    Ok(())
}

#[test]
fn input_far_within_a_limit(rt: HostRuntime) -> Result<(), Fail> {
    for (most, read) in [(0, 0), (2, 2), (3, 3), (4, 3), (usize::MAX, 3)] {
        let mut input: &[u8] = &[1, 2, 3];
        let bytes = read_all(rt.alloc(), &mut input, most)?;
        assert_eq!(rt; bytes.as_slice(), &[1, 2, 3][..read]);
        // What is past the limit is left to the next reader.
        assert_eq!(rt; input, &[1, 2, 3][read..]);
    }
    Ok(())
}

// An input in messages of 600 bytes, of which what a read has no room for is lost.
#[derive(Drop)]
struct Messages {
    left: u8,
}

impl Read for Messages {
    fn read(&mut self, buffer: &mut [u8]) -> io::Result<usize> {
        if self.left == 0 {
            return Ok(0);
        }
        self.left -= 1;
        Ok(buffer.len().min(600))
    }
}

#[test]
fn input_in_messages(rt: HostRuntime) -> Result<(), Fail> {
    let bytes = read_reserved(rt.alloc(), &mut Messages { left: 3 }, 65_536)?;
    assert_eq!(rt; bytes.len(), 1_800);
    Ok(())
}
