//! The tests.

ghost use Rattle.std.specs.Prelude.{◌≡◌};
ghost use Rattle.mr_cache.specs.Cache.{code_of};

use mr_bits::{Mask, Matrix};
use mr_cache::{Pattern, PlanCache, PlanError, Served};
use mr_fixture::{RDP_3, RDP_5};
use mr_form::read_matrix;
use mr_plan::check;
use std::alloc::Global;
use std::process::Abort;
use std::test::Fail;

/// The matrix of a text.
fn code(rt: &impl Abort, text: &'static str) -> Matrix {
    let bytes = text.as_bytes();
    read_matrix(bytes).expect(rt, "the text is a matrix")
}

/// What the cache answers of a pattern, and the number of the set of its plan. Each plan has to be valid.
fn served(
    rt: &impl Abort,
    alloc: Global,
    cache: &mut PlanCache,
    matrix: &Matrix,
    pattern: Pattern,
) -> Result<(Served, u128), PlanError>
    requires { code_of cache.old ≡ matrix.now }
    ensures { code_of cache.new ≡ matrix.now }
{
    assert!(rt; pattern.rotation < matrix.shape().n());
    assert!(rt; pattern.lost <= matrix.all().number());
    let served = cache.get(alloc, pattern)?;
    let plan = cache.front();
    let rotated = matrix.rotated(pattern.rotation);
    assert!(rt; check(&rotated, Mask::of(pattern.lost), plan).is_ok());
    Ok((served, plan.set().number()))
}

/// Symbols 0 and 1 of row-diagonal parity of the prime 3 are read from 3, 5 and 6.
#[test]
fn kept_plans(rt: HostRuntime) -> Result<(), Fail> {
    let matrix = code(&rt, RDP_3);
    let first = Pattern {
        rotation: 0,
        lost: 3,
    };
    let turned = Pattern {
        rotation: 1,
        lost: 3,
    };
    let mut cache = PlanCache::new(rt.alloc(), &matrix, 12, 1)?;
    let made = served(&rt, rt.alloc(), &mut cache, &matrix, first);
    assert!(&rt; made == Ok((Served::Made, 104)));
    let kept = served(&rt, rt.alloc(), &mut cache, &matrix, first);
    assert!(&rt; kept == Ok((Served::Kept, 104)));
    let other = served(&rt, rt.alloc(), &mut cache, &matrix, turned)?;
    assert!(&rt; other.0 == Served::Made);
    let again = served(&rt, rt.alloc(), &mut cache, &matrix, first);
    assert!(&rt; again == Ok((Served::Made, 104)));
    Ok(())
}

/// A pattern, and its least symbol that is not determined.
struct Drawn {
    rotation: u32,
    lost: u128,
    open: Option<u8>,
}

/// Patterns of row-diagonal parity of the prime 5, drawn at random: all symbols of one device, and up to five others. The
/// symbols that are not determined were found by another program.
static DRAWN: [Drawn; 12] = [
    Drawn {
        rotation: 4,
        lost: 64_000,
        open: None,
    },
    Drawn {
        rotation: 1,
        lost: 15_859_977,
        open: Some(0),
    },
    Drawn {
        rotation: 1,
        lost: 1_176_832,
        open: Some(10),
    },
    Drawn {
        rotation: 5,
        lost: 15_859_730,
        open: None,
    },
    Drawn {
        rotation: 1,
        lost: 4_194_544,
        open: None,
    },
    Drawn {
        rotation: 4,
        lost: 5_178_440,
        open: Some(3),
    },
    Drawn {
        rotation: 5,
        lost: 8_207,
        open: None,
    },
    Drawn {
        rotation: 4,
        lost: 2_748_432,
        open: Some(4),
    },
    Drawn {
        rotation: 2,
        lost: 264_207,
        open: None,
    },
    Drawn {
        rotation: 5,
        lost: 36_608,
        open: None,
    },
    Drawn {
        rotation: 2,
        lost: 987_136,
        open: None,
    },
    Drawn {
        rotation: 1,
        lost: 67_791,
        open: Some(3),
    },
];

#[test]
fn random_patterns(rt: HostRuntime) -> Result<(), Fail> {
    let matrix = code(&rt, RDP_5);
    let mut cache = PlanCache::new(rt.alloc(), &matrix, 4_096, 4)?;
    for row in DRAWN.iter() {
        let pattern = Pattern {
            rotation: row.rotation,
            lost: row.lost,
        };
        let made = served(&rt, rt.alloc(), &mut cache, &matrix, pattern);
        match row.open {
            None => assert!(&rt; made.is_ok()),
            Some(symbol) => assert!(&rt; made == Err(PlanError::Undetermined { symbol })),
        }
    }
    Ok(())
}
