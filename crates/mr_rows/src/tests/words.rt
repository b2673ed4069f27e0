//! The words of the command line that are refused, and those that look as if they were.

use crate::tests::rows::{LEAST, M};
use mr_runs::Bytes::Text;
use mr_runs::{
    Case, ON_RDP_3, SOUND, Schedule, Trial, check_cases, check_trial, words_in, words_of,
};
use std::alloc::Global;
use std::test::Fail;
use std::thread::Threads;

/// Words that are refused, in lines: commands that are none, the help words among them.
const COMMANDS: &str = "--help
-h
help
--version
-V
Plan m 0
plans m 0
pla m 0
-- plan m 0
--budget 0 plan m 0
m 0";

/// A place is missing, or one too many.
const PLACES: &str = "plan
plan m
plan m 0 1
plan m --budget 11
plan -- m
plan m 0 -- 1
plan -- m 0 --
plan -- m 0 --budget=11
plan help
check
check m
check m 0
check m 0 p 1
make
make rdp
make rdp 3 3
make 3 rdp";

/// LOST words that are none.
const LOST: &str = "plan m 0,0
plan m 1,0
plan m 01
plan m 0,01
plan m 0,
plan m ,0
plan m 0,,1
plan m ,
plan m None
plan m none,0
plan m 0,none
plan m nonee
plan m +0
plan m 0.1
plan m 0;1
plan m 0x1
plan m 1000000000
plan m 0,1000000000
plan m all";

/// Values of options that are out of their range, or no numbers.
const VALUES: &str = "plan m 0 --workers 65
plan m 0 --workers 0
plan m 0 --workers 01
plan m 0 --workers=65
plan m 0 --workers x
plan m 0 --budget 33554433
plan m 0 --budget 011
plan m 0 --budget=011
plan m 0 --budget 1e3
plan m 0 --budget +11
plan m 0 --budget=-1
plan m 0 --budget=
plan m 0 --budget -
plan m 0 --budget 4294967296
plan m 0 --budget 1000000000";

/// Options that the command does not have, that stand twice, without a value or shortened.
const OPTIONS: &str = "plan m 0 --live
plan m 0 --live=1
plan m 0 --plan p
plan m 0 --help
plan --help
plan -h
plan m 0 -h
plan m 0 --version
plan --version
plan m 0 -V
plan m 0 --budget
plan m 0 --workers
plan m 0 --budget --workers 2
plan m 0 --budget -1
plan m 0 --budget -- 11
plan m 0 --budget 11 --budget 11
plan m 0 --budget=11 --budget 11
plan m 0 --workers 2 --workers 2
plan m 0 --budge 11
plan m 0 --work 2
plan m 0 --b=11
plan m 0 -b 11
plan m 0 -budget 11
plan m 0 ---budget 11
plan m 0 --Budget 11
plan m 0 --budget11
plan m 0 --=11
plan -m 0
plan m -0
plan m -1
check m 0 p --workers 2
check m 0 p --budget 0
check m 0 --plan p
check m 0 p --help
make rdp 3 --workers 2
make rdp 3 --budget 0
make --help
make -h
make rdp -3";

/// Codes and primes that have no maker.
const MAKERS: &str = "make rdp 4
make rdp 1
make rdp 2
make rdp 9
make rdp 13
make rdp 03
make rdp three
make evenodd 2
make evenodd 4
make evenodd 11
make RDP 3
make rd 3";

/// Words of `encode`: a place is missing or one too many, a number is none, and an option, of which the command has none.
const ENCODE: &str = "encode
encode m d 2
encode -- m d 2
encode m d 2 8 9
encode -- m d 2 8 --
encode m d 01 8
encode m d 1000000000 8
encode m d 4294967298 8
encode m d +2 8
encode m d two 8
encode m d -- -2 8
encode m d 2 08
encode m d 2 8k
encode m d 2 -
encode m d 2 8 --workers 2
encode m d 2 8 --live
encode m d 2 8 --help
encode --matrix=m d 2 8
encode m d --stripes 2 --bytes 8
encode -m d 2 8
encode m d -2 8
Encode m d 2 8";

/// Words of `rebuild`: a place is missing or one too many, the lost devices are none, a number is out of its range or none,
/// an option has no value, stands twice, or is none.
const REBUILD: &str = "rebuild
rebuild m i
rebuild -- m i
rebuild --plan m i 0
rebuild m i 0 1
rebuild m i 0 --plan p q
rebuild -- m i 0 --plan=p
rebuild m i 1,0
rebuild m i 0,0
rebuild m i 01
rebuild m i 0,
rebuild m i none,0
rebuild m i 1000000000
rebuild m i 0 --workers 0
rebuild m i 0 --workers=65
rebuild m i 0 --workers 01
rebuild m i 0 --workers 4294967297
rebuild m i 0 --budget 33554433
rebuild m i 0 --budget=-1
rebuild m i 0 --budget 1e3
rebuild m i 0 --plan
rebuild m i 0 --plan=
rebuild m i 0 --plan --workers 2
rebuild m i 0 --plan -p
rebuild m i 0 --plan --
rebuild m i 0 --plan p --plan p
rebuild m i 0 --workers=2 --workers 2
rebuild --budget 1 m i 0 --budget=1
rebuild m i 0 --live=1
rebuild m i 0 --live --live
rebuild m i 0 --pla p
rebuild m i 0 --out o
rebuild m i 0 --help
rebuild --image=i m 0
rebuild m i 0 -p p
rebuild m -i 0
rebuild m i -1
Rebuild m i 0";

/// Words of `drill`: a place is missing or one too many, the number is none, and an option, of which the command has none.
const DRILL: &str = "drill
drill --
drill 0 1
drill -- 0 1
drill 00
drill 01
drill 1000000000
drill +1
drill -1
drill -- -1
drill 0x1
drill none
drill -
drill 0 --workers 4
drill 0 --budget 0
drill 0 --live
drill --number 0
drill --help
drills 0
Drill 0";

/// No words, empty ones, and words with a space or a line feed.
static ODD: [&[&str]; 28] = [
    &[],
    &[""],
    &["plan ", "m", "0"],
    &["plan", "", "0"],
    &["plan", "m", ""],
    &["plan", "m", "0", ""],
    &["plan", "", "m", "0"],
    &["plan", "m", "0, 1"],
    &["plan", "m", " 0"],
    &["plan", "m", "0", "--budget", ""],
    &["plan", "m", "0", "--budget", " 1"],
    &["make", "rdp", ""],
    &["make", "", "3"],
    &["encode", "", "d", "2", "8"],
    &["encode", "m", "", "2", "8"],
    &["encode", "m", "d", "", "8"],
    &["encode", "m", "d", "2", ""],
    &["encode", "m", "d", " 2", "8"],
    &["encode", "m", "d", "2", "8\n"],
    &["rebuild", "", "i", "0"],
    &["rebuild", "m", "", "0"],
    &["rebuild", "m", "i", ""],
    &["rebuild", "m", "i", "0", ""],
    &["rebuild", "m", "i", "0", "--plan", ""],
    &["rebuild", "m", "i", "0, 1"],
    &["rebuild", "m", "i", "0\n"],
    &["drill", ""],
    &["drill", " 0"],
];

/// A refusal of the words. No eye is asked for: the first would fail.
static USAGE: Case = Case {
    schedule: Schedule {
        eyes: &[(1, 0)],
        ..SOUND
    },
    status: 1,
    report: "status 1 usage\n",
    taken: [0; 5],
    ..ON_RDP_3
};

/// Asserts that the words are refused.
fn check_usage<T: Threads + Sync>(rt: &T, alloc: Global, words: Vec<String>) -> Result<(), Fail> {
    let mut trial = Trial::of(alloc, &USAGE)?;
    trial.words = words;
    Ok(check_trial(rt, alloc, trial)?)
}

/// Asserts that the words of each line are refused.
fn check_usages<T: Threads + Sync>(rt: &T, alloc: Global, lines: &str) -> Result<(), Fail> {
    for line in lines.split('\n') {
        check_usage(rt, alloc, words_in(alloc, line)?)?;
    }
    Ok(())
}

#[test]
fn refusals(rt: HostRuntime) -> Result<(), Fail> {
    check_usages(&rt, rt.alloc(), COMMANDS)?;
    check_usages(&rt, rt.alloc(), PLACES)?;
    check_usages(&rt, rt.alloc(), LOST)?;
    check_usages(&rt, rt.alloc(), VALUES)?;
    check_usages(&rt, rt.alloc(), OPTIONS)?;
    check_usages(&rt, rt.alloc(), MAKERS)?;
    check_usages(&rt, rt.alloc(), ENCODE)?;
    check_usages(&rt, rt.alloc(), REBUILD)?;
    check_usages(&rt, rt.alloc(), DRILL)?;
    for words in &ODD {
        check_usage(&rt, rt.alloc(), words_of(rt.alloc(), words)?)?;
    }
    Ok(())
}

/// A plan over a file of another name.
const NAMED: Case = Case {
    out: Text(LEAST),
    report: "least cost 3 work 12\n",
    ..ON_RDP_3
};

/// Names of files that look like something else.
static NAMES: [Case; 7] = [
    Case {
        words: &["plan", "-", "0"],
        files: &[("-", M)],
        ..NAMED
    },
    Case {
        words: &["plan", "--", "-m", "0"],
        files: &[("-m", M)],
        ..NAMED
    },
    Case {
        words: &["plan", "--", "--budget", "0"],
        files: &[("--budget", M)],
        ..NAMED
    },
    Case {
        words: &["plan", "--", "--", "0"],
        files: &[("--", M)],
        ..NAMED
    },
    Case {
        words: &["plan", "help", "0"],
        files: &[("help", M)],
        ..NAMED
    },
    Case {
        words: &["plan", "plan", "0"],
        files: &[("plan", M)],
        ..NAMED
    },
    Case {
        words: &["plan", "a b", "0"],
        files: &[("a b", M)],
        ..NAMED
    },
];

#[test]
fn names(rt: HostRuntime) -> Result<(), Fail> {
    Ok(check_cases(&rt, rt.alloc(), &NAMES)?)
}
