//! What changes in all epolls at once (epoll(7)).
ghost use Rattle.std.specs.Option.{option_map};
ghost use Rattle.std.specs.Prelude.{drop, length, map, take, ◌++◌, ◌≡◌, ◌≤◌};
ghost use Rattle.lx_machine.specs.Interests.{armed_for, armed_on, drained_side, side_holds, without_first_of, without_interests, without_those_in};

use lx_machine::files::{FileKind, Files, Interests, OpenFile};
use lx_machine::label::LxSide;

/// Arms the interests of the epoll of a place, if there is one, whose open file is this.
fn arm_place(place: &mut Option<Interests>, kind: FileKind, files: &[Option<OpenFile>])
    ensures { place.new ≡ option_map (armed_for kind files.now) place.old }
{
    if let Some(interests) = place {
        interests.arm(kind, files);
    }
}

/// From this place on, arms the interests of epolls whose open file is this.
fn arm_from(at: usize, epolls: &mut [Option<Interests>], kind: FileKind, files: &[Option<OpenFile>])
    requires { at ≤ length epolls.old }
    ensures { epolls.new ≡ take at epolls.old ++ map (option_map (armed_for kind files.now)) (drop at epolls.old) }
{
    if at < epolls.len() {
        arm_place(&mut epolls[at], kind, files);
        arm_from(at + 1, epolls, kind, files);
    }
}

/// Arms the interests whose open file is this, in every epoll.
pub fn arm_on(files: &mut Files, kind: FileKind)
    ensures { files.new ≡ armed_on kind files.old }
{
    arm_from(0, &mut files.epolls, kind, &files.files);
}

/// Lets the interests in an open file go from the epoll of a place, if there is one.
fn remove_at(place: &mut Option<Interests>, file: u32)
    ensures { place.new ≡ option_map (without_those_in file) place.old }
{
    if let Some(interests) = place {
        interests.remove_file(file);
    }
}

/// From this place on, lets the interests in an open file go from the epolls.
fn remove_from(at: usize, epolls: &mut [Option<Interests>], file: u32)
    requires { at ≤ length epolls.old }
    ensures { epolls.new ≡ take at epolls.old ++ map (option_map (without_those_in file)) (drop at epolls.old) }
{
    if at < epolls.len() {
        remove_at(&mut epolls[at], file);
        remove_from(at + 1, epolls, file);
    }
}

/// Lets the interests in an open file go from every epoll.
pub fn remove_interests(files: &mut Files, file: u32)
    ensures { files.new ≡ without_interests file files.old }
{
    remove_from(0, &mut files.epolls, file);
}

/// Lets the first bytes of a console room go. It has to hold so many.
fn drop_first_of(files: &mut Files, which: LxSide, count: usize)
    requires { count ≤ length (side_holds files.old which) }
    ensures { files.new ≡ without_first_of files.old which count }
{
    match which {
        LxSide::Out => files.out.drop_first(count),
        LxSide::Err => files.err.drop_first(count),
    }
}

/// Drains the first bytes of a console room, which counts as a read of it. It has to hold so many.
pub fn drain_side(files: &mut Files, which: LxSide, count: usize)
    requires { count ≤ length (side_holds files.old which) }
    ensures { files.new ≡ drained_side files.old which count }
{
    drop_first_of(files, which, count);
    arm_on(files, FileKind::Console(which));
}
