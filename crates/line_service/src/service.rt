//! What answers lines.
ghost use Rattle.std.specs.Prelude.{◌≡◌, ◌≤◌, ℕ, List, take};
ghost use Rattle.line_service.specs.declared.service.TheConstants.{ROOM};

/// The most bytes of a line that a service can look at.
pub const ROOM: usize = 128;

/// Answers lines, each under its number. What is answered is a function of the state, the number and the line.
pub trait LineService {
    /// What an answer depends on beside the line and its number.
    ghost State: { Type 0 };

    /// What the service is now.
    ghost state: { Self → State };

    /// The bytes that answer a line under a number.
    ghost shown: { State → ℕ → List ℕ → List ℕ };

    /// The state after a line.
    ghost next: { State → List ℕ → State };

    /// The bytes that answer the last line.
    ghost printed: { Self → List ℕ };

    /// What no answer changes.
    ghost kept: { Self → Self → Type 0 };

    ghost LONGEST: { ℕ };

    ghost LAST: { ℕ };

    /// How many bytes of a line the service looks at, at most `ROOM`. It sees no more of a longer line.
    const LONGEST: usize;

    /// The number of the last line that the service answers.
    const LAST: u64;

    /// Answers a line. What is answered under a number above `LAST` is left open, but for what no answer changes.
    fn answer(&mut self, number: u64, line: &[u8])
        ensures shown { number ≤ LAST → printed self.new ≡ shown (state self.old) number line.now }
        ensures next { number ≤ LAST → state self.new ≡ next (state self.old) line.now }
        ensures kept { kept self.old self.new };

    /// The answer to the last line.
    fn printed(&self) -> &[u8]
        ensures { result.now ≡ printed self.now };

    ghost kept_self: { (s : Self) → kept s s };

    ghost kept_on: { (a b c : Self) → kept a b → kept b c → kept a c };

    ghost has_room: { LONGEST ≤ ROOM };

    /// What stands past the bytes that the service looks at changes no answer.
    ghost looks_shown: { (s : State) (number : ℕ) (line : List ℕ) → shown s number (take LONGEST line) ≡ shown s number line };

    /// Nor does it change the state.
    ghost looks_next: { (s : State) (line : List ℕ) → next s (take LONGEST line) ≡ next s line };
}
