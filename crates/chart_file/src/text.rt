ghost use Rattle.std.specs.Prelude.{◌+◌, ◌*◌, map, length, decimal};
ghost use Rattle.chart_file.specs.Printed.{WroteAtMost};
ghost use Rattle.chart_file.specs.Text.{printed, reply};

use crate::answer::Answer;
use commands::Refusal;
use sink::Sink;

// A word and numbers, parted by commas. Not by `write!`: tried, and the proof did not close, since it promises text
// only where it answers `Ok`, and not that it does.
pub(crate) fn print(sink: &mut Sink, word: &[u8], numbers: &[u32])
    ensures { WroteAtMost (length word.now + 11 * length numbers.now + 1) sink.old sink.new (printed word.now (map decimal numbers.now)) }
{
    sink.text(word);
    for n in numbers {
        sink.byte(b',');
        sink.number(*n);
    }
    sink.byte(b'\n');
}

// What the line with this number is answered, by `print` and so not by `write!`.
pub(crate) fn print_reply(sink: &mut Sink, line: u32, answer: Result<Answer, Refusal>)
    ensures { WroteAtMost 64 sink.old sink.new (reply line answer) }
{
    match answer {
        Ok(Answer::Id(id)) => print(sink, b"id", &[u32::from(id)]),
        Ok(Answer::Was(label)) => print(sink, b"was", &[u32::from(label)]),
        Ok(Answer::Done) => print(sink, b"done", &[]),
        Err(refusal) => print(
            sink,
            b"no",
            &[
                line,
                u32::from(refusal.field()),
                u32::from(refusal.number()),
            ],
        ),
    }
}
