// What an accepted line is answered.
#[derive(Clone, Copy, Debug, PartialEq, Eq)]
pub enum Answer {
    // The id of the node that was added.
    Id(u8),
    // The label of the node that was removed.
    Was(u16),
    Done,
}
