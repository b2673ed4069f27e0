use mr_eq::Found;

/// What the loss of a job costs.
#[derive(Clone, Copy, Debug, PartialEq, Eq)]
pub enum JobAnswer {
    /// The survivors determine the loss, and this is what the search found.
    Plan(Found),
    /// The survivors do not determine this symbol of the loss, which is the least such symbol.
    Undetermined {
        /// The symbol.
        symbol: u8,
    },
}

/// One row of a table: a job and its answer.
#[derive(Clone, Copy, Debug, PartialEq, Eq)]
pub struct Row {
    /// The job, as its place in `losses_of`.
    pub job: u32,
    /// What its loss costs.
    pub answer: JobAnswer,
}
