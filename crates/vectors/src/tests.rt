// What no clause says: which lines are handed on, and what is printed.
use crate::answer_lines;
use std::io;
use std::io::ErrorKind;
use std::test::Fail;

// Each line is handed on up to the room, and what follows the last line feed is no line.
#[test]
fn lines_are_answered(rt: HostRuntime) -> Result<(), Fail> {
    let input = b"abc\nlonger than four\n\nno line".as_slice();
    for (room, want) in [
        (4, b"abc.long..".as_slice()),
        (0, b"...".as_slice()),
        (usize::MAX, b"abc.longer than four..".as_slice()),
    ] {
        let mut printed = Vec::new(rt.alloc());
        answer_lines(rt.alloc(), input, &mut printed, room, |line, answer| {
            answer.extend_from_slice(line)?;
            answer.push(b'.')?;
            Ok(())
        })?;
        assert_eq!(rt; printed.as_slice(), want, "room for {room}");
    }
    Ok(())
}

// A line may be longer than what is read at a time, and so may its answer.
#[test]
fn line_of_any_length(rt: HostRuntime) -> Result<(), Fail> {
    let mut input = Vec::new(rt.alloc());
    input.resize(100_000, b'x')?;
    input.push(b'\n')?;
    let mut printed = Vec::new(rt.alloc());
    answer_lines(
        rt.alloc(),
        input.as_slice(),
        &mut printed,
        100_000,
        |line, answer| {
            answer.extend_from_slice(line)?;
            Ok(())
        },
    )?;
    assert_eq!(rt; printed.len(), 100_000);
    assert!(rt; printed.iter().all(|byte| *byte == b'x'));
    Ok(())
}

// The first error of a case ends it: what was answered before stands.
#[test]
fn case_that_fails(rt: HostRuntime) -> Result<(), Fail> {
    let mut printed = Vec::new(rt.alloc());
    let ended = answer_lines(
        rt.alloc(),
        b"a\nb\nc\n".as_slice(),
        &mut printed,
        4,
        |line, answer| {
            if line == b"b".as_slice() {
                return Err(io::Error::from(ErrorKind::InvalidData));
            }
            answer.extend_from_slice(line)?;
            Ok(())
        },
    );
    assert_eq!(rt; ended.map_err(|e| e.kind()), Err(ErrorKind::InvalidData));
    assert_eq!(rt; printed.as_slice(), b"a".as_slice());
    Ok(())
}
