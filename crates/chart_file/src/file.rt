ghost use Rattle.std.specs.Prelude.{◌≡◌, ◌*◌, ◌^◌, ◌≤◌, length, ok_or};
ghost use Rattle.commands.specs.declared.refusal.Refusal.TheVariants.{BadKind};
ghost use Rattle.lines.specs.Lines.{lines};
ghost use Rattle.chart_file.specs.Chart.{fresh};
ghost use Rattle.chart_file.specs.Laws.{FileLaws};
ghost use Rattle.chart_file.specs.Output.{answer, kind_of, left_in, opened, replies};
ghost use Rattle.chart_file.specs.Printed.{WroteAtMost};
ghost use Rattle.chart_file.specs.Turns.{Opens, ending};

use crate::interpreter::Interpreter;
use crate::text::print_reply;
use commands::{Kind, Refusal};
use lines::{LineReader, TooLong};
use sink::Sink;

// The most bytes of input that are read.
pub const INPUT_MAX: usize = 65536;

// Writes the output for a whole chart file as far as `out` reaches, and answers its full length; none for an input that is too long.
pub fn run(input: &[u8], out: &mut [u8]) -> Option<usize>
    ensures answer { result ≡ answer input.now }
    ensures buffer { out.new ≡ left_in out.old input.now }
    ensures laws { FileLaws }
{
    answer_file(input, out)
}

// Apart from `run`, which carries the laws too: so a mistake here is told by the promise that it breaks.
fn answer_file(input: &[u8], out: &mut [u8]) -> Option<usize>
    ensures answer { result ≡ answer input.now }
    ensures buffer { out.new ≡ left_in out.old input.now }
{
    if input.len() > INPUT_MAX {
        return None;
    }
    let mut sink = Sink::new(out);
    match open(input) {
        Ok((_, rest)) => answer_lines(rest, &mut sink),
        Err(refusal) => print_reply(&mut sink, 1, Err(refusal)),
    }
    Some(sink.len())
}

// The kind that the first line names, and what follows that line.
fn open(input: &[u8]) -> Result<(Kind, &[u8]), Refusal>
    ensures { Opens (opened (lines input.now)) (length input.now) result }
{
    // Byte by byte, here and below: a line is lent by the reader, and an iterator can't lend one.
    let mut reader = LineReader::new();
    let mut bytes = input.iter();
    while let Some(b) = bytes.next() {
        reader.step(*b);
        if let Some(line) = reader.completed() {
            return Ok((read_kind(line)?, bytes.as_slice()));
        }
    }
    let line = reader.finished().ok_or(Refusal::BadKind)?;
    Ok((read_kind(line)?, &[]))
}

fn read_kind(line: Result<&[u8], TooLong>) -> Result<Kind, Refusal>
    ensures { result ≡ ok_or (kind_of (ending line.entry)) BadKind }
{
    Kind::try_from(line.map_err(|_| Refusal::BadKind)?)
}

// Answers each line after the first, and lists the chart.
fn answer_lines(input: &[u8], sink: &mut Sink)
    requires { length input.now ≤ 65536 }
    ensures { WroteAtMost (2 ^ 32) sink.old sink.new (replies 2 (lines input.now) fresh) }
{
    let mut reader = LineReader::new();
    let mut interpreter = Interpreter::new();
    for b in input {
        reader.step(*b);
        interpreter.answer_ended(reader.completed(), sink);
    }
    interpreter.answer_ended(reader.finished(), sink);
    interpreter.list(sink);
}
