// Lines at the limit, and bytes that other readers of lines treat apart.
ghost use Rattle.std.specs.Prelude.{◌≡◌, is_some};
ghost use Rattle.lines.specs.Lines.{Room};

use crate::{LineReader, TooLong};

// stands for the size of a line that is too long
const TOO_LONG: usize = 99;

fn size(line: Option<Result<&[u8], TooLong>>) -> Option<usize>
    ensures { is_some result ≡ is_some line.entry }
{
    line.map(|line| line.map_or(TOO_LONG, <[u8]>::len))
}

// The room of a reader behind a reference, which no call tells.
fn check_lent(reader: &LineReader)
    ensures { Room reader.now.reading }
{}

// Two new readers are the same.
#[tactic(auto, using(crate::proofs::Readers::same_readers))]
fn new_ones() -> (LineReader, LineReader)
    ensures { result.0 ≡ result.1 }
{
    (LineReader::new(), LineReader::new())
}

#[test]
fn sizes_of_lines(rt: HostRuntime) {
    let (mut reader, other) = new_ones();
    assert_eq!(rt; size(other.finished()), None);
    assert_eq!(rt; size(reader.finished()), None);
    for (len, expected) in [
        (0, 0),
        (0, 0),
        (1, 1),
        (39, 39),
        (40, 40),
        (41, TOO_LONG),
        (200, TOO_LONG),
    ] {
        for _ in 0..len {
            reader.step(0xff);
        }
        reader.step(b'\n');
        assert_eq!(rt; size(reader.completed()), Some(expected));
    }
    // a last line, which nothing ends but the input's end
    reader.step(b'\r');
    reader.step(b'\0');
    check_lent(&reader);
    assert_eq!(rt; size(reader.finished()), Some(2));
}
