//! Calls that are counted, some of which are to fail.
ghost use Rattle.std.specs.Prelude.{◌<◌};

/// How many calls were made, the numbers of those that fail, counted from 0, and how many bytes
/// one moves at most.
#[derive(Drop)]
pub struct Calls {
    pub piece: u32,
    pub fails: Vec<u32>,
    pub made: u64,
    ghost some: { 0 < piece },
}

impl Calls {
    ghost use Rattle.std.specs.Prelude.{◌≡◌, ◌≤◌};
    ghost use Rattle.um_io.specs.Calls.{IsAtStart, is_next_listed, after_call};

    /// No call was made yet.
    pub fn new(piece: u32, fails: Vec<u32>) -> Self
        requires { 1 ≤ piece }
        ensures { IsAtStart result piece fails.items }
    {
        Calls {
            piece,
            fails,
            made: 0,
        }
    }

    /// Counts a call, and says whether it is to fail.
    pub fn next_fails(&mut self) -> bool
        ensures listed { result ≡ is_next_listed self.old }
        ensures made { self.new ≡ after_call self.old }
    {
        let call = self.made;
        self.made = call.saturating_add(1);
        self.fails.iter().any(|&number| u64::from(number) == call)
    }
}
