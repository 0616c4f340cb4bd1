// A vertex before it is in: where it is, and what goes with it.
#[derive(Clone, Copy, PartialEq, Eq, Debug)]
pub struct Site {
    pub x: u64,
    pub y: u64,
    pub data: u64,
}
