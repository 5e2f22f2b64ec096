// How a pass over cards or leads goes on, and why it ended.

// How a pass goes on: more may come, or all cards were read.
#[derive(Clone, Copy, PartialEq, Eq)]
pub enum Goes {
    More,
    End,
}

// Why a pass over cards or leads ended before all were read: the file of this argument cannot be
// opened any more, or a read of it failed; or the lent block has no room for a record or a frame.
#[derive(Clone, Copy, PartialEq, Eq)]
pub enum PassFailed {
    CannotOpen(usize),
    CannotRead(usize),
    NoRoom,
}
