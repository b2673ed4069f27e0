//! What is left of a crew that has worked, and the end of its work.

ghost use Rattle.std.specs.Prelude.{◌≡◌, ℕ, ◌+◌, ◌*◌, ◌<◌, ◌≤◌, ◌∷◌, ◌++◌, [], All, Any, IfSome, List, MatchOption, OnErr, OnOk, Some, length, map, option_to_list, vec_capacity, vec_len, if◌then◌else◌};
ghost use Rattle.std.specs.Vec.Iter.{into_iter_items, into_iter_len};
ghost use Rattle.mr_board.specs.Boards.{IsBoardOf, IsPassOf, pass_view};
ghost use Rattle.mr_counts.specs.Numbers.{times};
ghost use Rattle.mr_image.specs.Images.{image_of, mended};
ghost use Rattle.mr_image.specs.Sights.{HasImage};
ghost use Rattle.mr_io.specs.Counts.{Rose};
ghost use Rattle.mr_mend.specs.Mending.{AreMendable, HoldsMended, mended_file};
ghost use Rattle.mr_mend.specs.Scripts.{IsInRange};
ghost use Rattle.mr_mend.specs.Serving.{live_reads, reply_bytes};
ghost use Rattle.mr_plan.specs.PlanLists.{recipes_at};
ghost use Rattle.mr_ready.specs.Crews.{HasWayBack, worker_eyes};
ghost use Rattle.mr_ready.specs.Desks.{HaveTaken, KeepDuties};
ghost use Rattle.mr_ready.specs.Joining.{HasJoined, IsWhole};
ghost use Rattle.mr_ready.specs.Placing.{IsBoardFor};
ghost use Rattle.mr_ready.specs.Reads.{copying_reads};
ghost use Rattle.mr_ready.specs.Written.{AreBuffers};

use crate::buffers::Buffers;
use crate::crews::Crew;
use crate::gathering::gather;
use crate::orders::Order;
use crate::placing::put_mended;
use mr_board::{Board, Pass};
use mr_io::{Eye, Failed};
use mr_kern::XorKernel;
use mr_mend::{Rebuild, copy_survivors, serve_asks};

/// What is left of a crew that has worked.
pub(crate) struct Desk<E> {
    /// The board.
    pub board: Board,
    /// A pass that knows what all workers did.
    pub pass: Pass,
    /// The eyes of the workers, in their order, and room for the others.
    pub eyes: Vec<E>,
    /// Without `live`, the eye that serves the reads.
    pub server: Option<E>,
    /// The eye that copies the survivors.
    pub copier: E,
}

/// Takes a crew apart: the passes of its workers are joined, and their eyes gathered.
pub(crate) fn leave<E: Eye>(crew: Crew<E>, live: bool) -> Desk<E>
    requires way { HasWayBack 0 crew }
    requires rest { into_iter_len crew.rest ≡ (if live then 1 else 2) }
    ensures board { result.board ≡ crew.board }
    ensures eyes { result.eyes.items ≡ worker_eyes crew.workers.items }
    ensures others { option_to_list result.server ++ result.copier ∷ []
        ≡ into_iter_items crew.rest }
    ensures server { length (option_to_list result.server) ≡ (if live then 0 else 1) }
    ensures room { vec_len result.eyes + length (option_to_list result.server) + 1
        ≤ vec_capacity result.eyes }
    ensures pass { IsPassOf result.board result.pass }
    ensures whole { IsWhole (pass_view result.pass) }
    ensures joined { HasJoined (pass_view crew.pass)
        (map (λ worker. pass_view worker.pass) crew.workers.items) (pass_view result.pass) }
{
    let Crew {
        board,
        mut pass,
        workers,
        mut rest,
        back,
    } = crew;
    let eyes = gather(&board, &mut pass, workers, back);
    let server = if live { None } else { rest.next() };
    let copier = rest.next().unwrap();
    rest.destroy_empty();
    Desk {
        board,
        pass,
        eyes,
        server,
        copier,
    }
}

/// All eyes of a desk, in their order. There is room for them.
pub(crate) fn collect<E>(desk: Desk<E>) -> Vec<E>
    requires { vec_len desk.eyes + length (option_to_list desk.server) + 1
        ≤ vec_capacity desk.eyes }
    ensures { result.items ≡ desk.eyes.items ++ option_to_list desk.server ++ desk.copier ∷ [] }
{
    let Desk {
        board: _,
        pass: _,
        mut eyes,
        server,
        copier,
    } = desk;
    if let Some(eye) = server {
        eyes.push_reserved(eye);
    }
    eyes.push_reserved(copier);
    eyes
}

/// Puts the mended symbols into the image, serves the reads without `live`, and copies the survivors. It takes no memory.
pub(crate) fn finish<E: Eye>(
    order: &Order,
    kernel: &XorKernel,
    desk: &mut Desk<E>,
    buffers: &mut Buffers,
) -> Result<(), Failed>
    requires plans { AreMendable order.now.head order.now.plans }
    requires asks { All (IsInRange order.now.head) order.now.asks.items }
    requires board { IsBoardFor desk.old.board order.now.head order.now.plans }
    requires pass { IsPassOf desk.old.board desk.old.pass }
    requires seen { (t : ℕ) → t < order.now.head.stripes
        → 0 < times t (pass_view desk.old.pass).seen }
    requires server { All (λ eye. HasImage order.now.head (E.sight eye))
        (option_to_list desk.old.server) }
    requires copier { HasImage order.now.head (E.sight desk.old.copier) }
    requires buffers { AreBuffers order.now.head order.now.asks.items buffers.old }
    ensures image { OnOk result ((bytes : List ℕ)
        → IsBoardOf desk.old.board order.now.head order.now.plans (Some bytes)
        → (E.sight desk.old.copier).bytes ≡ Some bytes → buffers.new.image.items
        ≡ mended_file order.now.head (recipes_at order.now.plans) bytes) }
    ensures replies { OnOk result (MatchOption desk.old.server
        (buffers.new.replies.items ≡ buffers.old.replies.items) (λ eye. (bytes : List ℕ)
        → IsBoardOf desk.old.board order.now.head order.now.plans (Some bytes)
        → (E.sight eye).bytes ≡ Some bytes → buffers.new.replies.items ≡ reply_bytes
        (mended order.now.head (recipes_at order.now.plans) (image_of order.now.head bytes))
        order.now.asks.items)) }
    ensures buffers { AreBuffers order.now.head order.now.asks.items buffers.new }
    ensures eyes { desk.new.eyes ≡ desk.old.eyes }
    ensures server { KeepDuties E.sight (option_to_list desk.old.server)
        (option_to_list desk.new.server) }
    ensures copier { KeepDuties E.sight (desk.old.copier ∷ []) (desk.new.copier ∷ []) }
    ensures server_took { OnOk result (HaveTaken E.sight E.faults
        (live_reads order.now.head (recipes_at order.now.plans) order.now.asks.items)
        (option_to_list desk.old.server) (option_to_list desk.new.server)) }
    ensures copier_took { OnOk result (HaveTaken E.sight E.faults
        (copying_reads order.now.head order.now.plans)
        (desk.old.copier ∷ []) (desk.new.copier ∷ [])) }
    ensures cause { OnErr result (Any (λ eye. Rose 0 (E.faults eye))
        (option_to_list desk.new.server ++ desk.new.copier ∷ [])) }
{
    put_mended(
        &desk.board,
        &mut desk.pass,
        order,
        buffers.image.as_mut_slice(),
    );
    serve_after(order, kernel, &mut desk.server, buffers)?;
    copy_survivors(
        &mut desk.copier,
        &order.head,
        &order.plans,
        buffers.image.as_mut_slice(),
    )
}

/// Without `live`, serves the reads by the one eye that is there for them.
fn serve_after<E: Eye>(
    order: &Order,
    kernel: &XorKernel,
    server: &mut Option<E>,
    buffers: &mut Buffers,
) -> Result<(), Failed>
    requires asks { All (IsInRange order.now.head) order.now.asks.items }
    requires server { All (λ eye. HasImage order.now.head (E.sight eye))
        (option_to_list server.old) }
    requires buffers { AreBuffers order.now.head order.now.asks.items buffers.old }
    ensures replies { OnOk result (MatchOption server.old
        (buffers.new.replies.items ≡ buffers.old.replies.items) (λ eye. (bytes : List ℕ)
        → HoldsMended order.now.head (recipes_at order.now.plans) (image_of order.now.head bytes)
        buffers.old.image.items
        → (E.sight eye).bytes ≡ Some bytes → buffers.new.replies.items ≡ reply_bytes
        (mended order.now.head (recipes_at order.now.plans) (image_of order.now.head bytes))
        order.now.asks.items)) }
    ensures buffers { AreBuffers order.now.head order.now.asks.items buffers.new }
    ensures image { buffers.new.image.items ≡ buffers.old.image.items }
    ensures server { KeepDuties E.sight (option_to_list server.old) (option_to_list server.new) }
    ensures took { OnOk result (HaveTaken E.sight E.faults
        (live_reads order.now.head (recipes_at order.now.plans) order.now.asks.items)
        (option_to_list server.old) (option_to_list server.new)) }
    ensures cause { OnErr result
        (Any (λ eye. Rose 0 (E.faults eye)) (option_to_list server.new)) }
{
    if let Some(eye) = server {
        let rebuild = Rebuild {
            head: &order.head,
            plans: &order.plans,
            asks: &order.asks,
            kernel,
        };
        serve_asks(
            eye,
            &rebuild,
            buffers.image.as_slice(),
            buffers.replies.as_mut_slice(),
        )?;
    }
    Ok(())
}
