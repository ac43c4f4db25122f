// The weights of the two kinds of chart, and the cells that hold them.
#![tactic(auto)]

use cells::NotZero;

// A stagger: by how many hundredths of a second one machine starts before or after another. Zero means no edge.
pub type StaggerCell = NotZero<i32>;

// Which feeder ties two machines, and over how many centimetres of cable. Zeros are real.
#[derive(Clone, Copy, PartialEq, Eq, Debug)]
pub struct Tie {
    pub feeder: u8,
    pub length: u16,
}

pub type TieCell = Option<Tie>;
