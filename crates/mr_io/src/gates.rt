//! Points that work passes, for one who looks on.

/// A point that work passes. Costs, levels, stripes and replies are numbered as in the search, the image and
/// the script.
#[derive(Clone, Copy, Debug, PartialEq, Eq)]
pub enum Point {
    /// A chunk of the layer of this cost and level was taken, the chunk of this number.
    Chunk {
        cost: u32,
        level: u8,
        number: u32,
    },
    /// The children of that chunk were made, and so many.
    Made {
        cost: u32,
        level: u8,
        number: u32,
        children: u32,
    },
    /// A stripe was drawn by a worker that is to mend it.
    Drawn {
        stripe: u32,
    },
    /// A stripe was mended.
    Done {
        stripe: u32,
    },
    /// The reply of this number is begun.
    ReadBegin {
        number: u32,
    },
    /// The reply of this number is made.
    ReadEnd {
        number: u32,
    },
    /// The plan of a stripe was found.
    Planned {
        stripe: u32,
    },
    /// A job was taken from those that are left, the job of this number.
    Job {
        number: u32,
    },
    /// A stripe was taken under its lock.
    Held {
        stripe: u32,
    },
    /// A stripe was given back, and its lock with it.
    Left {
        stripe: u32,
    },
}

/// Is told of each point that work passes. It returns, and tells nothing. Several threads may pass one gate.
pub trait Gate {
    /// Work passes this point.
    fn pass(&self, point: Point);
}

/// A gate that does nothing.
#[derive(Clone, Copy, Debug, PartialEq, Eq)]
pub struct OpenGate;

impl Gate for OpenGate {
    fn pass(&self, _point: Point) {}
}
