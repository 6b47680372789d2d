// The calls of a form in memory: which of them fail, and how many came.
ghost use Rattle.std.specs.Prelude.{◌≡◌, ◌↔◌, Contains, IsTrue};
ghost use Rattle.outside.specs.Memory.{counted};

#[derive(Drop)]
pub struct Calls {
    pub failing: Vec<u64>,
    pub made: u64,
}

// Whether a number is listed.
fn is_listed(numbers: &[u64], number: u64) -> bool
    ensures { IsTrue result ↔ Contains numbers.now number }
{
    numbers.contains(&number)
}

impl Calls {
    pub fn new(failing: Vec<u64>) -> Calls
        ensures { result ≡ record { failing = failing; made = 0 } }
    {
        Calls { failing, made: 0 }
    }

    // Counts a call, and says whether it is to fail.
    pub fn fails_next(&mut self) -> bool
        ensures fails { IsTrue result ↔ Contains self.old.failing.items self.old.made }
        ensures counts { self.new ≡ record self.old { made = counted self.old.made } }
    {
        let call = self.made;
        self.made = self.made.saturating_add(1);
        is_listed(&self.failing, call)
    }
}
