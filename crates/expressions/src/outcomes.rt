// Why a node comes to no value.
#[derive(Clone, Copy, PartialEq, Eq)]
pub enum Reason {
    Range,
    Divisor,
}
