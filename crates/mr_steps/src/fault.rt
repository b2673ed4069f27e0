//! Why a run ended without its answer.

ghost use Rattle.std.specs.Prelude.{◌≡◌};
ghost use Rattle.mr_io.specs.Counts.{HasCause};
ghost use Rattle.mr_io.specs.Taking.{Puts};
ghost use Rattle.mr_steps.specs.Faults.{fault_status, fault_line, image_name, kind_name, what_name, why_name};

use itoa::Buffer;
use mr_bits::{Large, NoMemory, What};
use mr_eq::Undetermined;
use mr_form::{HeadFault, ImageKind, LineKind, MatrixFault};
use mr_io::{Failed, FilesError, Sink, put_all, put_pieces};
use mr_plan::{PlanLine, Why, Wrong};
use mr_words::WordsError;
use std::alloc::AllocError;

/// Why a run ended without its answer. Each has its status and its line in the report.
#[derive(Clone, Copy, Debug, PartialEq, Eq)]
pub enum Fault {
    /// The words of the command line are not read.
    Usage,
    /// The bytes of the matrix file are no matrix text: the first bad line, from 1, and what is
    /// wrong with it.
    BadMatrix { line: u32, kind: LineKind },
    /// A number is above its limit.
    TooLarge { what: What, number: u64 },
    /// A lost device is not one of the matrix's: the first such.
    NoDevice { device: u32 },
    /// The head, the numbers or the length of an image, or the length of the data for one, are not
    /// right.
    BadImage { kind: ImageKind },
    /// The bytes of the script are no reads of the image: the first bad line, from 1.
    BadScript { line: u32 },
    /// The survivors do not determine the lost symbols: the least symbol that they do not.
    Undetermined { symbol: u8 },
    /// The survivors do not determine the lost symbols in a rotation of the matrix: the least such
    /// rotation, and the least symbol that they do not in it.
    UndeterminedAt { rotation: u32, symbol: u8 },
    /// The symbols of a stripe that can be read do not determine those that fail: the first such stripe,
    /// and the least symbol of it that they do not.
    UndeterminedIn { stripe: u32, symbol: u8 },
    /// The bytes of the plan file are no plan text: the first bad line, from 1.
    BadPlanLine { line: u32 },
    /// The plan is not valid for the matrix and the lost symbols: its first fault, and the symbol
    /// at which it is.
    BadPlan { symbol: u8, why: Why },
    /// A file could not be read.
    ReadFault,
    /// The answer or the report could not be written.
    WriteFault,
    /// There was no memory.
    Memory,
    /// The bytes of a list of symbols that cannot be read are none of the image: the first bad line,
    /// from 1.
    BadSectors { line: u32 },
}

impl Fault {
    /// The exit status, from 1 to 12.
    pub fn status(&self) -> u8
        ensures { result ≡ fault_status self.now }
    {
        match self {
            Fault::Usage => 1,
            Fault::BadMatrix { .. } => 2,
            Fault::TooLarge { .. } => 3,
            Fault::NoDevice { .. } => 4,
            Fault::BadImage { .. } => 5,
            Fault::BadScript { .. } => 6,
            Fault::Undetermined { .. }
            | Fault::UndeterminedAt { .. }
            | Fault::UndeterminedIn { .. } => 7,
            Fault::BadPlanLine { .. } | Fault::BadPlan { .. } => 8,
            Fault::ReadFault => 9,
            Fault::WriteFault => 10,
            Fault::Memory => 11,
            Fault::BadSectors { .. } => 12,
        }
    }

    /// Writes the fault's line, as `status 4 device 7`. Takes no memory.
    pub fn print<K: Sink>(&self, out: &mut K) -> Result<(), Failed>
        ensures puts { Puts (K.held out.old) (K.held out.new) result (fault_line self.now) }
        ensures cause { HasCause (K.faults out.old) (K.faults out.new) result }
    {
        match self {
            Fault::Usage => put_all(out, b"status 1 usage\n"),
            Fault::BadMatrix { line, kind } => print_matrix_fault(*line, *kind, out),
            Fault::TooLarge { what, number } => print_large(*what, *number, out),
            Fault::NoDevice { device } => print_device(*device, out),
            Fault::BadImage { kind } => print_image_fault(*kind, out),
            Fault::BadScript { line } => print_script_line(*line, out),
            Fault::Undetermined { symbol } => print_symbol(*symbol, out),
            Fault::UndeterminedAt { rotation, symbol } => {
                print_rotation(*rotation, *symbol, out)
            }
            Fault::UndeterminedIn { stripe, symbol } => print_stripe(*stripe, *symbol, out),
            Fault::BadPlanLine { line } => print_plan_line(*line, out),
            Fault::BadPlan { symbol, why } => print_plan_fault(*symbol, *why, out),
            Fault::ReadFault => put_all(out, b"status 9 read\n"),
            Fault::WriteFault => put_all(out, b"status 10 write\n"),
            Fault::Memory => put_all(out, b"status 11 memory\n"),
            Fault::BadSectors { line } => print_sectors_line(*line, out),
        }
    }
}

fn print_matrix_fault<K: Sink>(line: u32, kind: LineKind, out: &mut K) -> Result<(), Failed>
    ensures puts { Puts (K.held out.old) (K.held out.new) result
        (fault_line (Fault.BadMatrix line kind)) }
    ensures cause { HasCause (K.faults out.old) (K.faults out.new) result }
{
    let mut digits = Buffer::new();
    put_pieces(
        out,
        &[
            b"status 2 matrix line ",
            digits.format(line).as_bytes(),
            b" ",
            kind_text(kind),
            b"\n",
        ],
    )
}

fn print_large<K: Sink>(what: What, number: u64, out: &mut K) -> Result<(), Failed>
    ensures puts { Puts (K.held out.old) (K.held out.new) result
        (fault_line (Fault.TooLarge what number)) }
    ensures cause { HasCause (K.faults out.old) (K.faults out.new) result }
{
    let mut digits = Buffer::new();
    put_pieces(
        out,
        &[
            b"status 3 large ",
            what_text(what),
            b" ",
            digits.format(number).as_bytes(),
            b"\n",
        ],
    )
}

fn print_device<K: Sink>(device: u32, out: &mut K) -> Result<(), Failed>
    ensures puts { Puts (K.held out.old) (K.held out.new) result
        (fault_line (Fault.NoDevice device)) }
    ensures cause { HasCause (K.faults out.old) (K.faults out.new) result }
{
    let mut digits = Buffer::new();
    put_pieces(
        out,
        &[b"status 4 device ", digits.format(device).as_bytes(), b"\n"],
    )
}

fn print_image_fault<K: Sink>(kind: ImageKind, out: &mut K) -> Result<(), Failed>
    ensures puts { Puts (K.held out.old) (K.held out.new) result
        (fault_line (Fault.BadImage kind)) }
    ensures cause { HasCause (K.faults out.old) (K.faults out.new) result }
{
    put_pieces(out, &[b"status 5 image ", image_text(kind), b"\n"])
}

fn print_script_line<K: Sink>(line: u32, out: &mut K) -> Result<(), Failed>
    ensures puts { Puts (K.held out.old) (K.held out.new) result
        (fault_line (Fault.BadScript line)) }
    ensures cause { HasCause (K.faults out.old) (K.faults out.new) result }
{
    let mut digits = Buffer::new();
    put_pieces(
        out,
        &[
            b"status 6 script line ",
            digits.format(line).as_bytes(),
            b"\n",
        ],
    )
}

fn print_symbol<K: Sink>(symbol: u8, out: &mut K) -> Result<(), Failed>
    ensures puts { Puts (K.held out.old) (K.held out.new) result
        (fault_line (Fault.Undetermined symbol)) }
    ensures cause { HasCause (K.faults out.old) (K.faults out.new) result }
{
    let mut digits = Buffer::new();
    put_pieces(
        out,
        &[
            b"status 7 undetermined symbol ",
            digits.format(symbol).as_bytes(),
            b"\n",
        ],
    )
}

fn print_rotation<K: Sink>(rotation: u32, symbol: u8, out: &mut K) -> Result<(), Failed>
    ensures puts { Puts (K.held out.old) (K.held out.new) result
        (fault_line (Fault.UndeterminedAt rotation symbol)) }
    ensures cause { HasCause (K.faults out.old) (K.faults out.new) result }
{
    let (mut first, mut second) = (Buffer::new(), Buffer::new());
    let rotation = first.format(rotation).as_bytes();
    let symbol = second.format(symbol).as_bytes();
    put_pieces(
        out,
        &[
            b"status 7 undetermined rotation ",
            rotation,
            b" symbol ",
            symbol,
            b"\n",
        ],
    )
}

fn print_stripe<K: Sink>(stripe: u32, symbol: u8, out: &mut K) -> Result<(), Failed>
    ensures puts { Puts (K.held out.old) (K.held out.new) result
        (fault_line (Fault.UndeterminedIn stripe symbol)) }
    ensures cause { HasCause (K.faults out.old) (K.faults out.new) result }
{
    let (mut first, mut second) = (Buffer::new(), Buffer::new());
    let stripe = first.format(stripe).as_bytes();
    let symbol = second.format(symbol).as_bytes();
    put_pieces(
        out,
        &[
            b"status 7 undetermined stripe ",
            stripe,
            b" symbol ",
            symbol,
            b"\n",
        ],
    )
}

fn print_plan_line<K: Sink>(line: u32, out: &mut K) -> Result<(), Failed>
    ensures puts { Puts (K.held out.old) (K.held out.new) result
        (fault_line (Fault.BadPlanLine line)) }
    ensures cause { HasCause (K.faults out.old) (K.faults out.new) result }
{
    let mut digits = Buffer::new();
    put_pieces(
        out,
        &[
            b"status 8 plan line ",
            digits.format(line).as_bytes(),
            b"\n",
        ],
    )
}

fn print_plan_fault<K: Sink>(symbol: u8, why: Why, out: &mut K) -> Result<(), Failed>
    ensures puts { Puts (K.held out.old) (K.held out.new) result
        (fault_line (Fault.BadPlan symbol why)) }
    ensures cause { HasCause (K.faults out.old) (K.faults out.new) result }
{
    let mut digits = Buffer::new();
    put_pieces(
        out,
        &[
            b"status 8 plan symbol ",
            digits.format(symbol).as_bytes(),
            b" ",
            why_text(why),
            b"\n",
        ],
    )
}

fn print_sectors_line<K: Sink>(line: u32, out: &mut K) -> Result<(), Failed>
    ensures puts { Puts (K.held out.old) (K.held out.new) result
        (fault_line (Fault.BadSectors line)) }
    ensures cause { HasCause (K.faults out.old) (K.faults out.new) result }
{
    let mut digits = Buffer::new();
    put_pieces(
        out,
        &[
            b"status 12 sectors line ",
            digits.format(line).as_bytes(),
            b"\n",
        ],
    )
}

fn why_text(why: Why) -> &'static [u8]
    ensures { result.now ≡ why_name why }
{
    match why {
        Why::NotSurvivor => b"notsurvivor",
        Why::Missing => b"missing",
        Why::Stray => b"stray",
        Why::Outside => b"outside",
        Why::Sum => b"sum",
        Why::Spare => b"spare",
    }
}

fn kind_text(kind: LineKind) -> &'static [u8]
    ensures { result.now ≡ kind_name kind }
{
    match kind {
        LineKind::Missing => b"missing",
        LineKind::NoEnd => b"noend",
        LineKind::Head => b"head",
        LineKind::Price => b"price",
        LineKind::Row => b"row",
        LineKind::Extra => b"extra",
    }
}

fn image_text(kind: ImageKind) -> &'static [u8]
    ensures { result.now ≡ image_name kind }
{
    match kind {
        ImageKind::Head => b"head",
        ImageKind::Shape => b"shape",
        ImageKind::Bytes => b"bytes",
        ImageKind::Length => b"length",
        ImageKind::Planned => b"planned",
        ImageKind::Version => b"version",
    }
}

fn what_text(what: What) -> &'static [u8]
    ensures { result.now ≡ what_name what }
{
    match what {
        What::MatrixBytes => b"matrixbytes",
        What::Symbols => b"symbols",
        What::Columns => b"columns",
        What::PlanBytes => b"planbytes",
        What::SymbolBytes => b"symbolbytes",
        What::ImageBytes => b"imagebytes",
        What::ScriptBytes => b"scriptbytes",
        What::ReplyBytes => b"replybytes",
        What::SectorBytes => b"sectorbytes",
        What::Stripes => b"stripes",
    }
}

impl From<Failed> for Fault {
    ghost use Rattle.std.specs.Prelude.{◌≡◌};
    ghost use Rattle.mr_steps.specs.declared.fault.Fault.TheVariants.{ReadFault};

    ghost from_gives = { λ _ fault. fault ≡ ReadFault };

    /// A failed read: failed writes are answered where they are made.
    fn from(_failed: Failed) -> Fault {
        Fault::ReadFault
    }
}

impl From<FilesError> for Fault {
    ghost use Rattle.mr_steps.specs.Faults.{IsFilesFault};

    ghost from_gives = { IsFilesFault };

    fn from(error: FilesError) -> Fault {
        match error {
            FilesError::Failed => Fault::ReadFault,
            FilesError::Memory => Fault::Memory,
        }
    }
}

impl From<AllocError> for Fault {
    ghost use Rattle.std.specs.Prelude.{◌≡◌};
    ghost use Rattle.mr_steps.specs.declared.fault.Fault.TheVariants.{Memory};

    ghost from_gives = { λ _ fault. fault ≡ Memory };

    fn from(_refused: AllocError) -> Fault {
        Fault::Memory
    }
}

impl From<NoMemory> for Fault {
    ghost use Rattle.std.specs.Prelude.{◌≡◌};
    ghost use Rattle.mr_steps.specs.declared.fault.Fault.TheVariants.{Memory};

    ghost from_gives = { λ _ fault. fault ≡ Memory };

    fn from(_refused: NoMemory) -> Fault {
        Fault::Memory
    }
}

impl From<WordsError> for Fault {
    ghost use Rattle.mr_steps.specs.Faults.{IsWordsFault};

    ghost from_gives = { IsWordsFault };

    fn from(error: WordsError) -> Fault {
        match error {
            WordsError::Usage => Fault::Usage,
            WordsError::Memory => Fault::Memory,
        }
    }
}

impl From<MatrixFault> for Fault {
    ghost use Rattle.std.specs.Prelude.{◌≡◌};
    ghost use Rattle.mr_steps.specs.Faults.{matrix_fault};

    ghost from_gives = { λ error fault. fault ≡ matrix_fault error };

    fn from(error: MatrixFault) -> Fault {
        match error {
            MatrixFault::Bad { line, kind } => Fault::BadMatrix { line, kind },
            MatrixFault::Large(Large { what, number }) => Fault::TooLarge { what, number },
        }
    }
}

impl From<HeadFault> for Fault {
    ghost use Rattle.std.specs.Prelude.{◌≡◌};
    ghost use Rattle.mr_steps.specs.Faults.{head_fault};

    ghost from_gives = { λ error fault. fault ≡ head_fault error };

    fn from(error: HeadFault) -> Fault {
        match error {
            HeadFault::Bad(kind) => Fault::BadImage { kind },
            HeadFault::Large(Large { what, number }) => Fault::TooLarge { what, number },
        }
    }
}

impl From<Undetermined> for Fault {
    ghost use Rattle.std.specs.Prelude.{◌≡◌};
    ghost use Rattle.mr_steps.specs.declared.fault.Fault.TheVariants.{Undetermined as IsUndetermined};

    ghost from_gives = { λ error fault. fault ≡ IsUndetermined error.symbol };

    fn from(error: Undetermined) -> Fault {
        Fault::Undetermined {
            symbol: error.symbol,
        }
    }
}

impl From<PlanLine> for Fault {
    ghost use Rattle.std.specs.Prelude.{◌≡◌};
    ghost use Rattle.mr_steps.specs.declared.fault.Fault.TheVariants.{BadPlanLine};

    ghost from_gives = { λ error fault. fault ≡ BadPlanLine error.line };

    fn from(error: PlanLine) -> Fault {
        Fault::BadPlanLine { line: error.line }
    }
}

impl From<Wrong> for Fault {
    ghost use Rattle.std.specs.Prelude.{◌≡◌};
    ghost use Rattle.mr_steps.specs.declared.fault.Fault.TheVariants.{BadPlan};

    ghost from_gives = { λ error fault. fault ≡ BadPlan error.symbol error.why };

    fn from(error: Wrong) -> Fault {
        Fault::BadPlan {
            symbol: error.symbol,
            why: error.why,
        }
    }
}
