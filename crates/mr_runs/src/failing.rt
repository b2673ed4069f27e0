//! Runs in which a call of the outside fails.

use crate::cases::Case;
use crate::misses::Miss;
use crate::outside::{Puts, Schedule};
use crate::trials::{Trial, check_trial};
use std::alloc::Global;
use std::thread::Threads;

/// The calls of eyes that fail, and the bytes that are taken before them.
pub type Unread = (&'static [(u64, u64)], [u64; 5]);

/// How a sink takes its bytes: its room, the most that its first puts take, the puts that fail, and how many bytes of the
/// answer it took when it failed.
pub type Cut = (usize, &'static [usize], &'static [u64], usize);

/// Runs a case, which is to end with a failed read where these calls fail, with nothing written.
pub fn check_unread<T: Threads + Sync>(
    rt: &T,
    alloc: Global,
    case: &Case,
    calls: &[Unread],
) -> Result<(), Miss> {
    for (eyes, taken) in calls {
        let trial = Trial::of(alloc, case)?
            .failing(eyes, [1, 0, 0, 0])
            .ends(alloc, 9, b"", b"status 9 read\n")?
            .takes(*taken);
        check_trial(rt, alloc, trial)?;
    }
    Ok(())
}

/// Runs a case, which is to end with a failed write where `out` takes its bytes so: a front of them stands, and the
/// report has the fault's line alone.
pub fn check_unwritten<T: Threads + Sync>(
    rt: &T,
    alloc: Global,
    case: &Case,
    cuts: &[Cut],
) -> Result<(), Miss> {
    let out = case.out.listed(alloc)?;
    for (room, takes, fails, count) in cuts {
        let puts = Puts {
            room: *room,
            takes,
            fails,
        };
        let schedule = Schedule {
            out: puts,
            ..case.schedule
        };
        let trial = Trial::of(alloc, case)?
            .under(schedule, [0, 0, 1, 0])
            .ends(alloc, 10, front_of(&out, *count), b"status 10 write\n")?;
        check_trial(rt, alloc, trial)?;
    }
    Ok(())
}

/// Runs a case, which is to end with a failed write where the report takes its bytes so: `out` has all, and no line
/// of the fault follows the front of the report.
pub fn check_unreported<T: Threads + Sync>(
    rt: &T,
    alloc: Global,
    case: &Case,
    cuts: &[Cut],
) -> Result<(), Miss> {
    let out = case.out.listed(alloc)?;
    let report = case.report.as_bytes();
    for (room, takes, fails, count) in cuts {
        let puts = Puts {
            room: *room,
            takes,
            fails,
        };
        let schedule = Schedule {
            report: puts,
            ..case.schedule
        };
        let trial = Trial::of(alloc, case)?
            .under(schedule, [0, 0, 0, 1])
            .ends(alloc, 10, &out, front_of(report, *count))?;
        check_trial(rt, alloc, trial)?;
    }
    Ok(())
}

/// Runs a case, which is to be the same by each of these schedules.
pub fn check_same<T: Threads + Sync>(
    rt: &T,
    alloc: Global,
    case: &Case,
    schedules: &[Schedule],
) -> Result<(), Miss> {
    for schedule in schedules {
        let trial = Trial::of(alloc, case)?.under(*schedule, case.faults);
        check_trial(rt, alloc, trial)?;
    }
    Ok(())
}

/// The first bytes, or all where they are fewer.
fn front_of(bytes: &[u8], count: usize) -> &[u8] {
    bytes.get(..count).unwrap_or(bytes)
}
