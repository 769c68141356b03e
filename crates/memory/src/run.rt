// Memory has two runs of places, each with a top of its own.

#[derive(Clone, Copy)]
pub enum Run {
    Slots,
    Bytes,
}
