//! The top call.

ghost use Rattle.std.specs.Prelude.{◌≡◌, ◌+◌, ◌≢◌, ◌≤◌, ◌⊎◌, ℕ, true, false, List, [], map, string_bytes, Ok, Err, Some, None, IfOk, IfSome};
ghost use Rattle.std.specs.Option.{ForSome};
ghost use Rattle.mr_io.specs.Counts.{HasCause, Rose};
ghost use Rattle.mr_io.specs.Growth.{grown};
ghost use Rattle.mr_io.specs.Reading.{ReadsFront};
ghost use Rattle.mr_io.specs.Taking.{Takes};
ghost use Rattle.mr_io.specs.Telling.{AsksFront};
ghost use Rattle.mr_top.specs.Answered.{asks_script, reaches_script, words_reach_script};
ghost use Rattle.mr_top.specs.Commands.{answer, command_answer};
ghost use Rattle.mr_top.specs.Eyes.{command_eyes};
ghost use Rattle.mr_top.specs.Answers.{Answers};
ghost use Rattle.mr_steps.specs.Sinks.{IsReported, HasLine, Reports, TakesFront};
ghost use Rattle.mr_steps.specs.Faults.{fault_line, fault_status};
ghost use Rattle.mr_mend.specs.Scripts.{script_limit};
ghost use Rattle.mr_top.specs.Outcomes.{IsHeld, finding_of, told_after};
ghost use Rattle.mr_top.specs.Replies.{output_of};
ghost use Rattle.mr_steps.specs.Requests.{IsRequest, request_of};
ghost use Rattle.mr_steps.specs.Steps.{EndsScript, FollowsWith, HasReadCauses, IsForeseen, IsLeft, IsPastWords, IsUnread};

use crate::carrying::carry_out;
use crate::check::check;
use crate::convert::convert;
use crate::drill::drill;
use crate::encode::encode;
use crate::lent::{Lent, Tools};
use crate::make::make;
use crate::outcome::{Outcome, replied};
use crate::plan::plan;
use crate::rebuild::rebuild;
use crate::reply::Reply;
use crate::scrub::scrub;
use crate::sectors::sectors;
use mr_io::{Files, Gate, Sink, Source};
use mr_kern::XorKernel;
use mr_steps::{Fault, Request, read_words, refuse};
use mr_words::{CheckWords, EncodeWords, ImageWords, PlanWords, RebuildWords, SectorsWords};
use std::alloc::Global;
use std::thread::Threads;

/// Answers the words of the command line: what the command gives goes to `out`, and its report, or
/// the line of the refusal, to `report`. The result is the exit status, 0 or that of the fault.
///
/// Everything is read before the first byte is written. After a refusal other than a failed write
/// nothing was written to `out`. Want of memory (11) may come at any step, and ends the run there.
pub fn run<T: Threads + Sync, F: Files, S: Source, O: Sink, R: Sink, G: Gate + Sync>(
    rt: &T,
    alloc: Global,
    words: &[String],
    files: &mut F,
    script: &mut S,
    out: &mut O,
    report: &mut R,
    gate: &G,
    kernel: &XorKernel,
) -> u8
    // For the bytes left in the script: the status, and what the sinks took, is what the words ask
    // for.
    ensures answers { IfSome (F.told files.old)
        (λ told. (left : List ℕ) × IsLeft (S.left script.old) left
        × Answers (map string_bytes words.now) told (F.told files.new) left
        (Rose (R.faults report.old) (R.faults report.new))
        ((Rose (F.faults files.old) (F.faults files.new) ⊎ Rose (S.faults script.old)
        (S.faults script.new))
        ⊎ (Rose (O.faults out.old) (O.faults out.new) ⊎ Rose (R.faults report.old)
        (R.faults report.new)))
        (record {
          status = result;
          out_old = O.held out.old;
          out_new = O.held out.new;
          report_old = R.held report.old;
          report_new = R.held report.new;
          totals_old = F.totals files.old;
          totals_new = F.totals files.new;
        })) }
    ensures line { result ≢ 0 → IsReported result (R.held report.old) (R.held report.new)
        (Rose (R.faults report.old) (R.faults report.new)) }

    // Words that are not read, and no others, are refused as such.
    ensures usage { result ≡ 1 → request_of (map string_bytes words.now) ≡ None }
    ensures not_read { request_of (map string_bytes words.now) ≡ None
        → (result ≡ 1) ⊎ (result ≡ 11) }

    // After a refusal `out` is as it was.
    ensures untouched { result ≢ 0 → result ≢ 10 → out.new ≡ out.old }

    // A failed read and a failed write have their causes.
    ensures read { result ≡ 9
        → Rose (F.faults files.old) (F.faults files.new) ⊎ Rose (S.faults script.old)
        (S.faults script.new) }
    ensures written { result ≡ 10
        → Rose (O.faults out.old) (O.faults out.new) ⊎ Rose (R.faults report.old)
        (R.faults report.new) }
    ensures later { (F.faults files.old ≤ F.faults files.new)
        × (S.faults script.old ≤ S.faults script.new) × (O.faults out.old ≤ O.faults out.new)
        × (R.faults report.old ≤ R.faults report.new) }

    // A run that answers 0 met no fault: each count is as it was.
    ensures quiet { result ≡ 0
        → (F.faults files.new ≡ F.faults files.old) × (S.faults script.new ≡ S.faults script.old)
        × (O.faults out.new ≡ O.faults out.old) × (R.faults report.new ≡ R.faults report.old) }

    // A rebuild that comes to want of memory read nothing of the image behind its head.
    ensures memory_first { result ≡ 11 → asks_script (request_of (map string_bytes words.now)) ≡ true
        → IsUnread (F.totals files.old) (F.totals files.new) }

    // Whatever is left in the script, the eyes asked for are a front of the command's.
    ensures asked_of_command { IfSome (F.told files.old)
        (λ told. AsksFront told (F.told files.new)
        (command_eyes (request_of (map string_bytes words.now)))) }

    // Whatever the status, a front of what was left in the script was taken, of at most 1,048,577
    // bytes.
    ensures script_front { ReadsFront (S.left script.old) (S.left script.new) (script_limit + 1) }

    // On 0 of a rebuild nothing is left in the script. It is as it was where the words ask for no
    // rebuild, or for one that is refused before the script is read.
    ensures ended { result ≡ 0 → asks_script (request_of (map string_bytes words.now)) ≡ true
        → ForSome (S.left script.old) (λ _. S.left script.new ≡ Some []) }
    ensures script_kept { IfSome (F.told files.old)
        (λ told. words_reach_script told.contents (request_of (map string_bytes words.now)) ≡ false
        → script.new ≡ script.old) }
    ensures no_script { asks_script (request_of (map string_bytes words.now)) ≡ false
        → script.new ≡ script.old }
{
    let tools = Tools {
        rt,
        alloc,
        gate,
        kernel,
    };
    match answer_lent(tools, words, files, script) {
        Ok(Outcome::Reply(reply)) => write_reply(&reply, out, report),
        Ok(Outcome::Ready(ready)) => {
            let tools = Tools {
                rt,
                alloc,
                gate,
                kernel,
            };
            carry_out(tools, files, ready, out, report)
        }
        Err(fault) => refuse(fault, report),
    }
}

/// The answer to the words, for what is lent.
fn answer_lent<T: Threads + Sync, F: Files, S: Source, G: Gate + Sync>(
    tools: Tools<'_, T, G>,
    words: &[String],
    files: &mut F,
    script: &mut S,
) -> Result<Outcome<F::E>, Fault>
    ensures follows { FollowsWith (finding_of F.E.sight) (F.told files.old)
        (told_after result (F.told files.new)) (F.totals files.old) (F.totals files.new)
        (S.left script.old) result
        (λ contents left. answer (map string_bytes words.now) contents left) }
    ensures held { IfOk result (IsHeld F.E.sight F.E.faults (F.told files.new)) }
    ensures unread { asks_script (request_of (map string_bytes words.now)) ≡ true
        → IsUnread (F.totals files.old) (F.totals files.new) }
    ensures ended { asks_script (request_of (map string_bytes words.now)) ≡ true
        → EndsScript (S.left script.old) (S.left script.new) result }
    ensures script_front { ReadsFront (S.left script.old) (S.left script.new) (script_limit + 1) }
    ensures kept { ForSome (F.told files.old) (λ told.
        words_reach_script told.contents (request_of (map string_bytes words.now)) ≡ false
        → script.new ≡ script.old) }
    ensures no_script { asks_script (request_of (map string_bytes words.now)) ≡ false
        → script.new ≡ script.old }
    ensures cause { HasReadCauses (F.faults files.old) (F.faults files.new)
        (S.faults script.old) (S.faults script.new) result }
    ensures usage { result ≡ Err Fault.Usage → request_of (map string_bytes words.now) ≡ None }
    ensures not_read { request_of (map string_bytes words.now) ≡ None
        → (result ≡ Err Fault.Usage) ⊎ (result ≡ Err Fault.Memory) }
{
    let mut lent = Lent {
        files,
        script,
        tools,
    };
    answer_words(&mut lent, words)
}

/// The answer to the words.
fn answer_words<T: Threads + Sync, F: Files, S: Source, G: Gate + Sync>(
    lent: &mut Lent<'_, '_, '_, T, F, S, G>,
    words: &[String],
) -> Result<Outcome<F::E>, Fault>
    ensures same_files { lent.new.files.ghost_name ≡ lent.old.files.ghost_name }
    ensures same_script { lent.new.script.ghost_name ≡ lent.old.script.ghost_name }
    ensures follows { FollowsWith (finding_of F.E.sight) (F.told lent.old.files.now)
        (told_after result (F.told lent.new.files.now)) (F.totals lent.old.files.now)
        (F.totals lent.new.files.now) (S.left lent.old.script.now) result
        (λ contents left. answer (map string_bytes words.now) contents left) }
    ensures held { IfOk result (IsHeld F.E.sight F.E.faults (F.told lent.new.files.now)) }
    ensures unread { asks_script (request_of (map string_bytes words.now)) ≡ true
        → IsUnread (F.totals lent.old.files.now) (F.totals lent.new.files.now) }
    ensures ended { asks_script (request_of (map string_bytes words.now)) ≡ true
        → EndsScript (S.left lent.old.script.now) (S.left lent.new.script.now) result }
    ensures script_front { ReadsFront (S.left lent.old.script.now) (S.left lent.new.script.now)
        (script_limit + 1) }
    ensures kept { ForSome (F.told lent.old.files.now) (λ told.
        words_reach_script told.contents (request_of (map string_bytes words.now)) ≡ false
        → lent.new.script.now ≡ lent.old.script.now) }
    ensures no_script { asks_script (request_of (map string_bytes words.now)) ≡ false
        → lent.new.script.now ≡ lent.old.script.now }
    ensures cause { HasReadCauses (F.faults lent.old.files.now) (F.faults lent.new.files.now)
        (S.faults lent.old.script.now) (S.faults lent.new.script.now) result }
    ensures usage { result ≡ Err Fault.Usage → request_of (map string_bytes words.now) ≡ None }
    ensures not_read { request_of (map string_bytes words.now) ≡ None
        → (result ≡ Err Fault.Usage) ⊎ (result ≡ Err Fault.Memory) }
{
    let request = read_words(lent.tools.alloc, words)?;
    answer_request(lent, request)
}

/// The answer to a request.
fn answer_request<T: Threads + Sync, F: Files, S: Source, G: Gate + Sync>(
    lent: &mut Lent<'_, '_, '_, T, F, S, G>,
    request: Request,
) -> Result<Outcome<F::E>, Fault>
    requires { IsRequest request }
    ensures same_files { lent.new.files.ghost_name ≡ lent.old.files.ghost_name }
    ensures same_script { lent.new.script.ghost_name ≡ lent.old.script.ghost_name }
    ensures follows { FollowsWith (finding_of F.E.sight) (F.told lent.old.files.now)
        (told_after result (F.told lent.new.files.now)) (F.totals lent.old.files.now)
        (F.totals lent.new.files.now) (S.left lent.old.script.now) result
        (λ contents left. command_answer contents left request) }
    ensures held { IfOk result (IsHeld F.E.sight F.E.faults (F.told lent.new.files.now)) }
    ensures unread { asks_script (Some request) ≡ true
        → IsUnread (F.totals lent.old.files.now) (F.totals lent.new.files.now) }
    ensures ended { asks_script (Some request) ≡ true
        → EndsScript (S.left lent.old.script.now) (S.left lent.new.script.now) result }
    ensures script_front { ReadsFront (S.left lent.old.script.now) (S.left lent.new.script.now)
        (script_limit + 1) }
    ensures kept { ForSome (F.told lent.old.files.now) (λ told.
        reaches_script told.contents request ≡ false
        → lent.new.script.now ≡ lent.old.script.now) }
    ensures no_script { asks_script (Some request) ≡ false
        → lent.new.script.now ≡ lent.old.script.now }
    ensures cause { HasReadCauses (F.faults lent.old.files.now) (F.faults lent.new.files.now)
        (S.faults lent.old.script.now) (S.faults lent.new.script.now) result }
    ensures past_words { IsPastWords result }
{
    match request {
        Request::Plan {
            matrix,
            lost,
            workers,
            budget,
        } => replied(plan(
            lent,
            &PlanWords {
                matrix,
                lost,
                workers,
                budget,
            },
        )),
        Request::Check { matrix, lost, plan } => {
            replied(check(lent, &CheckWords { matrix, lost, plan }))
        }
        Request::Make { code, p } => Ok(Outcome::Reply(make(code, p))),
        Request::Encode {
            matrix,
            payload,
            stripes,
            bytes,
        } => replied(encode(
            lent,
            &EncodeWords {
                matrix,
                payload,
                stripes,
                bytes,
            },
        )),
        Request::Rebuild {
            matrix,
            image,
            lost,
            workers,
            budget,
            plan,
            live,
        } => rebuild(
            lent,
            &RebuildWords {
                matrix,
                image,
                lost,
                workers,
                budget,
                plan,
                live,
            },
        ),
        Request::Convert { matrix, image } => {
            replied(convert(lent, &ImageWords { matrix, image }))
        }
        Request::Scrub { matrix, image } => replied(scrub(lent, &ImageWords { matrix, image })),
        Request::Sectors {
            matrix,
            image,
            lost,
            bad,
            budget,
        } => replied(sectors(
            lent,
            &SectorsWords {
                matrix,
                image,
                lost,
                bad,
                budget,
            },
        )),
        Request::Drill { number } => replied(drill(
            lent.tools.rt,
            lent.tools.alloc,
            lent.tools.gate,
            lent.tools.kernel,
            number,
        )),
    }
}

fn write_reply<O: Sink, R: Sink>(reply: &Reply, out: &mut O, report: &mut R) -> u8
    ensures status { (result ≡ 0) ⊎ (result ≡ 10) }
    ensures written { result ≡ 0 → Takes (O.held out.old) (O.held out.new) (output_of reply.now).out
        × Takes (R.held report.old) (R.held report.new) (output_of reply.now).report }
    ensures cut { result ≡ 10
        → TakesFront (O.held out.old) (O.held out.new) (output_of reply.now).out }
    ensures reported { result ≡ 10
        → Reports 10 (Ok (output_of reply.now)) (O.held out.old) (O.held out.new)
        (R.held report.old) (R.held report.new) (Rose (R.faults report.old) (R.faults report.new)) }
    ensures cause { result ≡ 10
        → Rose (O.faults out.old) (O.faults out.new) ⊎ Rose (R.faults report.old)
        (R.faults report.new) }
    ensures out_later { O.faults out.old ≤ O.faults out.new }
    ensures report_later { R.faults report.old ≤ R.faults report.new }
    ensures out_quiet { result ≡ 0 → O.faults out.new ≡ O.faults out.old }
    ensures report_quiet { result ≡ 0 → R.faults report.new ≡ R.faults report.old }
{
    match reply.print_out(out) {
        Ok(()) => match reply.print_report(report) {
            Ok(()) => 0,
            Err(_) => 10,
        },
        Err(_) => refuse(Fault::WriteFault, report),
    }
}
