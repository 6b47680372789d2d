//! Which open files may have interests in them, so that an event of any other costs no walk.
ghost use Rattle.std.specs.Prelude.{◌≡◌, slice_set};
ghost use Rattle.kqueue_core.specs.Watched.{forgotten, is_maybe, noted, nothing};

/// How many open files are told apart. Of a file with a greater number only `last` tells.
const FILES: usize = 384;

/// The open files in which there may be interests: no number is above `last`, and of the flags that of each is set.
#[derive(Clone, Copy)]
pub(crate) struct Watched {
    pub(crate) flags: [bool; FILES],
    pub(crate) last: u32,
}

impl Watched {
    // None.
    pub(crate) fn none() -> Watched
        ensures { result ≡ nothing }
    {
        Watched {
            flags: [false; FILES],
            last: 0,
        }
    }

    // Whether there may be an interest in the file.
    pub(crate) fn may_have(&self, file: u32) -> bool
        ensures { result ≡ is_maybe self.now file }
    {
        let at = file as usize;
        file <= self.last && (at >= FILES || self.flags[at])
    }

    // There may be an interest in this file too.
    pub(crate) fn note(&mut self, file: u32)
        ensures { self.new ≡ noted self.old file }
    {
        set_flag(&mut self.flags, file, true);
        self.last = self.last.max(file);
    }

    // There is none in this file.
    pub(crate) fn forget(&mut self, file: u32)
        ensures { self.new ≡ forgotten self.old file }
    {
        set_flag(&mut self.flags, file, false);
    }
}

// Sets the flag of a file, if it has one.
#[tactic(auto, using(std::proofs::lemmas::List::set_past))]
fn set_flag(flags: &mut [bool], file: u32, flag: bool)
    ensures { flags.new ≡ slice_set flags.old file flag }
{
    let at = file as usize;
    if at < flags.len() {
        flags[at] = flag;
    }
}
