//! The numbers of a new queue (kqueue(2)).
ghost use Rattle.std.specs.Prelude.{◌≡◌, ◌<◌, length, IfSome};
ghost use Rattle.open_files.specs.Making.{numbers_in};
ghost use Rattle.open_files.specs.PlainParts.{plain_in};

use crate::queues::Queues;
use open_files::Plain;
use open_files::making::FileNumbers;
use open_files::numbers::first_free;

/// The least free numbers for a queue, if there are any.
pub(crate) fn queue_numbers(plain: &Plain, queues: &Queues) -> Option<FileNumbers>
    ensures numbers { result ≡ numbers_in (plain_in plain.now) queues.now }
    ensures fits { IfSome result (λ at. at.number < length queues.now) }
{
    let file = first_free(&plain.files)?;
    let number = queues.first_free()?;
    Some(FileNumbers { number, file })
}
