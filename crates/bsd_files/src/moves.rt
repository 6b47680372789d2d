//! That a look is what the Linux machine's moves of reads and writes are.
ghost use Rattle.bsd_files.specs.Moves.{MovesOfReads, MovesOfWrites};

/// A move of a read, and of a write, in the Linux machine is a look at its files without the epolls: it waits, is refused, breaks or
/// moves as many bytes exactly where the look does, leaves what the look leaves, and arms the interests of which the look makes the
/// knotes active (read(2), write(2)).
pub fn moves_are_looks()
    ensures reads { MovesOfReads }
    ensures writes { MovesOfWrites }
{}
