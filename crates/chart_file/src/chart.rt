ghost use Rattle.std.specs.Prelude.{◌≡◌, ◌*◌};
ghost use Rattle.ids.specs.Calls.{weight};
ghost use Rattle.chart_file.specs.Printed.{WroteAtMost};
ghost use Rattle.chart_file.specs.Turns.{ending};
ghost use Rattle.chart_file.specs.Chart.{answered, fresh, applied, listing, node_lines, node_text};

use crate::answer::Answer;
use crate::text::print;
use commands::{Command, Refusal};
use ids::IdStorage;
use lines::TooLong;
use sink::Sink;
use std::marker::Model;

// The machines of a panel, each with its label.
#[derive(Debug, Drop)]
pub struct Chart {
    ids: IdStorage,
    // the places of the ids' weights, apart from them since memory is lent to each call
    labels: [u16; 255],
}

impl Model for Chart {
    ghost use Rattle.ids.specs.Record as meaning;
    ghost use Rattle.chart_file.specs.Chart.{State};

    ghost Value = { State };

    ghost view = { λ c. record { ids = meaning.ids c.ids; labels = c.labels } };
}

impl Chart {
    pub(crate) fn new() -> Chart
        ensures { result ≡ fresh }
    {
        Chart {
            ids: IdStorage::new(),
            labels: [0; 255],
        }
    }

    // What a line of the file is answered.
    pub(crate) fn answer(&mut self, line: Result<&[u8], TooLong>) -> Result<Answer, Refusal>
        ensures { record { answer = result; state = self.new } ≡ answered (ending line.entry) self.old }
    {
        let command = Command::try_from(line?)?;
        self.apply(command)
    }

    fn apply(&mut self, command: Command) -> Result<Answer, Refusal>
        ensures { record { answer = result; state = self.new } ≡ applied command self.old }
    {
        match command {
            Command::AddNode(label) => {
                let id = self.ids.add(&mut self.labels, label)?;
                Ok(Answer::Id(id))
            }
            Command::RemoveNode(id) => {
                let label = self.ids.remove(&self.labels, id)?;
                Ok(Answer::Was(label))
            }
            Command::Clear => {
                self.ids.clear();
                Ok(Answer::Done)
            }
        }
    }

    // The live ids with their labels, rising, and then how many there are.
    pub(crate) fn list(&self, sink: &mut Sink)
        ensures { WroteAtMost 16384 sink.old sink.new (listing self.now) }
    {
        self.list_nodes(sink);
        // Exact, as there are at most 255 ids; `try_from` is no plainer: it adds an error that can't occur. No edge is tallied yet.
        print(sink, b"end", &[self.ids.len() as u32, 0]);
    }

    fn list_nodes(&self, sink: &mut Sink)
        ensures { WroteAtMost (64 * 255) sink.old sink.new (node_lines self.now) }
    {
        for id in 0..self.ids.node_bound() {
            // Exact, as every id is below 255; `try_from` is no plainer: it adds an error that can't occur.
            self.list_node(sink, id as u8);
        }
    }

    fn list_node(&self, sink: &mut Sink, id: u8)
        ensures { WroteAtMost 64 sink.old sink.new (node_text self.now id) }
    {
        if let Some(label) = self.label(id) {
            print(sink, b"node", &[u32::from(id), u32::from(label)]);
        }
    }

    // The label of a live id. The places are never fewer than those in use.
    fn label(&self, id: u8) -> Option<u16>
        ensures { result ≡ weight self.now.ids self.now.labels id }
    {
        self.ids.get(&self.labels, id).unwrap_or(None)
    }
}
