ghost use Rattle.std.specs.Prelude.{◌≡◌, ◌+◌, ◌<◌};
ghost use Rattle.lines.specs.Readers.{lent};
ghost use Rattle.chart_file.specs.Chart.{fresh, listing};
ghost use Rattle.chart_file.specs.Printed.{WroteAtMost};
ghost use Rattle.chart_file.specs.Text.{reply};
ghost use Rattle.chart_file.specs.Turns.{ending, next_line, next_state, next_text};

use crate::chart::Chart;
use crate::text::print_reply;
use lines::TooLong;
use sink::Sink;

// A chart that is edited line by line, and the number of the next line.
#[derive(Debug, Drop)]
pub(crate) struct Interpreter {
    chart: Chart,
    line: u32,
}

impl Interpreter {
    // The first line has opened the chart.
    pub(crate) fn new() -> Interpreter
        ensures chart { result.chart ≡ fresh }
        ensures line { result.line ≡ 2 }
    {
        Interpreter {
            chart: Chart::new(),
            line: 2,
        }
    }

    // Answers the line that has ended, if one has.
    pub(crate) fn answer_ended(&mut self, ended: Option<Result<&[u8], TooLong>>, sink: &mut Sink)
        requires { self.old.line < 100000 }
        ensures line { self.new.line ≡ next_line self.old.line (lent ended.entry) }
        ensures chart { self.new.chart ≡ next_state (lent ended.entry) self.old.chart }
        ensures text { WroteAtMost 64 sink.old sink.new (next_text self.old.line (lent ended.entry) self.old.chart) }
    {
        if let Some(line) = ended {
            let answer = self.chart.answer(line);
            print_reply(sink, self.line, answer);
            self.line += 1;
        }
    }

    // The chart as it is after the last line.
    pub(crate) fn list(&self, sink: &mut Sink)
        ensures { WroteAtMost 16384 sink.old sink.new (listing self.now.chart) }
    {
        self.chart.list(sink);
    }
}
