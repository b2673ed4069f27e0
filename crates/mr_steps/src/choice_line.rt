//! The line of a plan in the report.

ghost use Rattle.mr_io.specs.Counts.{HasCause};
ghost use Rattle.mr_io.specs.Taking.{Puts};
ghost use Rattle.mr_steps.specs.Lines.{line_text};

use itoa::Buffer;
use mr_io::{Failed, Sink, put_pieces};

/// How a plan was found, as the report says it.
#[derive(Clone, Copy, Debug, PartialEq, Eq)]
pub enum ChoiceLine {
    /// The cheapest set, which costs `cost`, by a search of this work.
    Least { cost: u32, work: u32 },
    /// The plain set, which costs `cost`, since a search would have passed this budget.
    Spent { cost: u32, budget: u32 },
    /// The set of a plan that was handed in, which costs `cost`.
    Given { cost: u32 },
}

impl ChoiceLine {
    /// Writes the line. Takes no memory.
    pub fn print<K: Sink>(&self, report: &mut K) -> Result<(), Failed>
        ensures puts { Puts (K.held report.old) (K.held report.new) result (line_text self.now) }
        ensures cause { HasCause (K.faults report.old) (K.faults report.new) result }
    {
        match self {
            ChoiceLine::Least { cost, work } => print_least(*cost, *work, report),
            ChoiceLine::Spent { cost, budget } => print_spent(*cost, *budget, report),
            ChoiceLine::Given { cost } => print_given(*cost, report),
        }
    }
}

fn print_least<K: Sink>(cost: u32, work: u32, report: &mut K) -> Result<(), Failed>
    ensures puts { Puts (K.held report.old) (K.held report.new) result
        (line_text (ChoiceLine.Least cost work)) }
    ensures cause { HasCause (K.faults report.old) (K.faults report.new) result }
{
    let (mut first, mut second) = (Buffer::new(), Buffer::new());
    let cost = first.format(cost).as_bytes();
    let work = second.format(work).as_bytes();
    put_pieces(report, &[b"least cost ", cost, b" work ", work, b"\n"])
}

fn print_spent<K: Sink>(cost: u32, budget: u32, report: &mut K) -> Result<(), Failed>
    ensures puts { Puts (K.held report.old) (K.held report.new) result
        (line_text (ChoiceLine.Spent cost budget)) }
    ensures cause { HasCause (K.faults report.old) (K.faults report.new) result }
{
    let (mut first, mut second) = (Buffer::new(), Buffer::new());
    let cost = first.format(cost).as_bytes();
    let budget = second.format(budget).as_bytes();
    put_pieces(report, &[b"spent cost ", cost, b" budget ", budget, b"\n"])
}

fn print_given<K: Sink>(cost: u32, report: &mut K) -> Result<(), Failed>
    ensures puts { Puts (K.held report.old) (K.held report.new) result
        (line_text (ChoiceLine.Given cost)) }
    ensures cause { HasCause (K.faults report.old) (K.faults report.new) result }
{
    let mut digits = Buffer::new();
    put_pieces(
        report,
        &[b"given cost ", digits.format(cost).as_bytes(), b"\n"],
    )
}
