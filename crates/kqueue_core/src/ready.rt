//! Readiness: which events hold of an open file now.
ghost use Rattle.std.specs.Prelude.{◌≡◌, ℕ};
ghost use Rattle.kqueue_core.specs.declared.knotes.Filter.{Filter as TheFilter};

use crate::knotes::Filter;

/// Who tells which events hold of an open file now.
pub trait Readiness {
    /// The events that it tells of a file and a filter, as bits of epoll.
    ghost told: { Self → ℕ → TheFilter → ℕ };

    /// The events that hold of an open file now, as far as a filter tells of them; 0 where no such file lives.
    fn bits(&self, file: u32, filter: Filter) -> u32
        ensures { result ≡ told self.now file filter };
}
