//! The end of an open file, and what ends with it (close(2), pipe(2), kqueue(2)).
ghost use Rattle.std.specs.Prelude.{◌≡◌, ◌∷◌, Some};
ghost use Rattle.lx_machine.specs.Files.{after_end_of, closed, closed_if_unnamed, ended_if_unnamed, given_back, numbered, without_file, without_pipe};
ghost use Rattle.lx_machine.specs.Lists.{without_place};
ghost use Rattle.open_files.specs.Kinds.{kind_out};
ghost use Rattle.bsd_files.specs.Ops.{Leave, close_ops, each_queue, end_ops, give_ops, settle_ops, settle_ops_of};
ghost use Rattle.open_files.specs.PlainParts.{plain_in};

use crate::queues::Queues;
use kqueue_core::Filter;
use open_files::numbers::{place_at, set_place};
use open_files::{File, OpenFile, Plain};

// Lets the pipe go where neither of its ends lives.
fn let_pipe_go(plain: &mut Plain, pipe: u32)
    ensures { plain_in plain.new ≡ without_pipe (plain_in plain.old) pipe }
{
    if !(plain.has_reader(pipe) || plain.has_writer(pipe)) {
        plain.pipes.close(pipe);
    }
}

// Lets go of what an open file of this kind was, and activates the knotes of the other end of a pipe.
fn end_kind(plain: &mut Plain, queues: &mut Queues, kind: File)
    ensures plain { plain_in plain.new ≡ after_end_of (kind_out kind) (plain_in plain.old) }
    ensures queues { queues.new ≡ each_queue (end_ops (kind_out kind) plain.old.files) queues.old }
{
    match kind {
        File::ReadEnd(pipe) => {
            queues.activate(File::WriteEnd(pipe), Filter::Write, &plain.files);
            let_pipe_go(plain, pipe);
        }
        File::WriteEnd(pipe) => {
            queues.activate(File::ReadEnd(pipe), Filter::Read, &plain.files);
            let_pipe_go(plain, pipe);
        }
        File::Counter(number) => set_place(&mut plain.counters, number, None),
        File::Queue(number) => queues.close(number),
        File::Input => {}
        File::Console(_) => {}
    }
}

// Ends an open file of this kind, and takes its knotes out of all queues.
fn end_file(plain: &mut Plain, queues: &mut Queues, file: u32, kind: File)
    ensures plain { plain_in plain.new ≡ without_file (plain_in plain.old) file (kind_out kind) }
    ensures queues { queues.new ≡ each_queue (Leave file ∷ end_ops (kind_out kind) (without_place plain.old.files file)) queues.old }
{
    set_place(&mut plain.files, file, None);
    queues.drop_file(file);
    end_kind(plain, queues, kind);
}

// Ends this open file where nothing names it any more.
fn end_if_unnamed(plain: &mut Plain, queues: &mut Queues, file: u32, f: OpenFile)
    ensures plain { plain_in plain.new ≡ ended_if_unnamed (plain_in plain.old) (numbered file f) }
    ensures queues { queues.new ≡ each_queue (settle_ops_of plain.old.descriptors plain.old.files file (Some f)) queues.old }
{
    if plain.is_unnamed(file, f) {
        end_file(plain, queues, file, f.file());
    }
}

// Ends the open file of this number, if there is one, where nothing names it any more.
fn settle(plain: &mut Plain, queues: &mut Queues, file: u32)
    ensures plain { plain_in plain.new ≡ closed_if_unnamed (plain_in plain.old) file }
    ensures queues { queues.new ≡ each_queue (settle_ops plain.old.descriptors plain.old.files file) queues.old }
{
    if let Some(f) = plain.file(file) {
        end_if_unnamed(plain, queues, file, f);
    }
}

/// Closes a descriptor, if it is open.
pub(crate) fn close_descriptor(plain: &mut Plain, queues: &mut Queues, fd: u32)
    ensures plain { plain_in plain.new ≡ closed (plain_in plain.old) fd }
    ensures queues { queues.new ≡ each_queue (close_ops (plain_in plain.old) fd) queues.old }
{
    if let Some(descriptor) = place_at(&plain.descriptors, fd) {
        set_place(&mut plain.descriptors, fd, None);
        settle(plain, queues, descriptor.file());
    }
}

/// A call gives the open file back.
pub(crate) fn give_back(plain: &mut Plain, queues: &mut Queues, file: u32)
    ensures plain { plain_in plain.new ≡ given_back (plain_in plain.old) file }
    ensures queues { queues.new ≡ each_queue (give_ops (plain_in plain.old) file) queues.old }
{
    if let Some(f) = plain.file(file) {
        set_place(&mut plain.files, file, Some(f.held_once_less()));
        settle(plain, queues, file);
    }
}
