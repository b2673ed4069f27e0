//! What a command comes to before anything is written.

ghost use Rattle.std.specs.Prelude.{◌≡◌};
ghost use Rattle.mr_top.specs.Outcomes.{replied_as};

use crate::reply::Reply;
use mr_ready::Ready;
use mr_steps::Fault;

/// What a command comes to before anything is written.
pub(crate) enum Outcome<E> {
    /// What is to be written.
    Reply(Reply),
    /// An image that is to be rebuilt, with all memory and all eyes that this takes.
    Ready(Ready<E>),
}

/// What is to be written, as what a command comes to.
pub(crate) fn replied<E>(reply: Result<Reply, Fault>) -> Result<Outcome<E>, Fault>
    ensures { result ≡ replied_as reply }
{
    match reply {
        Ok(reply) => Ok(Outcome::Reply(reply)),
        Err(fault) => Err(fault),
    }
}
