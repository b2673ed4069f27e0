/// How the set of a plan was found.
#[derive(Clone, Copy, PartialEq, Eq, Debug)]
pub enum Kind {
    /// By a search to its end: no set of survivors that determines the lost symbols costs less.
    Least,
    /// Without a search, since it would have passed the budget: the plain set.
    Spent,
    /// It was handed in.
    Given,
}
