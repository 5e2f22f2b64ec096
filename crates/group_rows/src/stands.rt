// Where a walk over the balises of a group stands: which rows are still open.
use crate::Picked;

// Before A: what has passed. Back: only rows of the opposite direction are open.
#[derive(Clone, Copy)]
pub enum Before {
    Nothing,
    Number,
    Eight,
    NumberEight,
    BackFourteen,
    BackNine,
    BackMarker,
    BackNumberMarker,
}

// After A: what must come next.
#[derive(Clone, Copy)]
pub enum Must {
    Nine,
    LowNine,
    Five,
    Marker,
    ThreeFiveSeven,
}

// After A: what may come next. The group may end here.
#[derive(Clone, Copy)]
pub enum May {
    Fourteen,
    Eight,
    Twelve,
    Nothing,
}

// What comes after A.
#[derive(Clone, Copy)]
pub enum Tail {
    Must(Must),
    May(May),
}

// A stand: before A, or after it, with what its row says.
#[derive(Clone, Copy)]
pub enum Walk {
    Before(Before),
    After(Tail, Picked),
}
