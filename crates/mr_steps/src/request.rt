//! What the words of the command line ask for.

use mr_io::Text;
use mr_words::{
    CheckWords, Code, DrillWords, EncodeWords, MakeWords, PlanWords, RebuildWords, SectorsWords,
};

/// What the words of the command line ask for.
#[derive(Debug, Drop)]
pub enum Request {
    /// The plan for a matrix file and the lost devices, by this many workers and within this
    /// budget.
    Plan {
        matrix: Text,
        lost: Text,
        workers: u32,
        budget: u32,
    },
    /// Whether a plan file's plan is valid for a matrix file and the lost devices.
    Check {
        matrix: Text,
        lost: Text,
        plan: Text,
    },
    /// The matrix text of a published code for a prime that it is made for.
    Make {
        code: Code,
        p: u32,
    },
    /// The image of the codewords of a data file, for a matrix file: so many stripes, with symbols
    /// of so many bytes.
    Encode {
        matrix: Text,
        payload: Text,
        stripes: u32,
        bytes: u32,
    },
    /// An image file with the symbols of the lost devices rebuilt, for a matrix file: by this many
    /// workers, and within this budget or by the plan of a plan file; the reads are served while it
    /// is mended, or after that.
    Rebuild {
        matrix: Text,
        image: Text,
        lost: Text,
        workers: u32,
        budget: u32,
        plan: Option<Text>,
        live: bool,
    },
    /// The image of version 2 that is made of an image file, for a matrix file.
    Convert {
        matrix: Text,
        image: Text,
    },
    /// The stripes of an image file that are no codewords, for a matrix file.
    Scrub {
        matrix: Text,
        image: Text,
    },
    /// An image file in which the symbols of the lost devices and those that a file lists are mended, for
    /// a matrix file, each stripe by a plan within this budget.
    Sectors {
        matrix: Text,
        image: Text,
        lost: Text,
        bad: Text,
        budget: u32,
    },
    /// The drill of this number, over an image that it makes in memory.
    Drill {
        number: u32,
    },
}

impl From<PlanWords> for Request {
    ghost use Rattle.std.specs.Prelude.{◌≡◌};
    ghost use Rattle.mr_steps.specs.Requests.{plan_request};

    ghost from_gives = { λ words request. request ≡ plan_request words };

    fn from(words: PlanWords) -> Request {
        Request::Plan {
            matrix: words.matrix,
            lost: words.lost,
            workers: words.workers,
            budget: words.budget,
        }
    }
}

impl From<MakeWords> for Request {
    ghost use Rattle.std.specs.Prelude.{◌≡◌};
    ghost use Rattle.mr_steps.specs.Requests.{make_request};

    ghost from_gives = { λ words request. request ≡ make_request words };

    fn from(words: MakeWords) -> Request {
        Request::Make {
            code: words.code,
            p: words.prime,
        }
    }
}

impl From<CheckWords> for Request {
    ghost use Rattle.std.specs.Prelude.{◌≡◌};
    ghost use Rattle.mr_steps.specs.Requests.{check_request};

    ghost from_gives = { λ words request. request ≡ check_request words };

    fn from(words: CheckWords) -> Request {
        Request::Check {
            matrix: words.matrix,
            lost: words.lost,
            plan: words.plan,
        }
    }
}

impl From<EncodeWords> for Request {
    ghost use Rattle.std.specs.Prelude.{◌≡◌};
    ghost use Rattle.mr_steps.specs.Requests.{encode_request};

    ghost from_gives = { λ words request. request ≡ encode_request words };

    fn from(words: EncodeWords) -> Request {
        Request::Encode {
            matrix: words.matrix,
            payload: words.payload,
            stripes: words.stripes,
            bytes: words.bytes,
        }
    }
}

impl From<RebuildWords> for Request {
    ghost use Rattle.std.specs.Prelude.{◌≡◌};
    ghost use Rattle.mr_steps.specs.Requests.{rebuild_request};

    ghost from_gives = { λ words request. request ≡ rebuild_request words };

    fn from(words: RebuildWords) -> Request {
        Request::Rebuild {
            matrix: words.matrix,
            image: words.image,
            lost: words.lost,
            workers: words.workers,
            budget: words.budget,
            plan: words.plan,
            live: words.live,
        }
    }
}

impl From<DrillWords> for Request {
    ghost use Rattle.std.specs.Prelude.{◌≡◌};
    ghost use Rattle.mr_steps.specs.Requests.{drill_request};

    ghost from_gives = { λ words request. request ≡ drill_request words };

    fn from(words: DrillWords) -> Request {
        Request::Drill {
            number: words.number,
        }
    }
}

impl From<SectorsWords> for Request {
    ghost use Rattle.std.specs.Prelude.{◌≡◌};
    ghost use Rattle.mr_steps.specs.Requests.{sectors_request};

    ghost from_gives = { λ words request. request ≡ sectors_request words };

    fn from(words: SectorsWords) -> Request {
        Request::Sectors {
            matrix: words.matrix,
            image: words.image,
            lost: words.lost,
            bad: words.bad,
            budget: words.budget,
        }
    }
}
