// Pseudorandom numbers: each draw steps a 64-bit state, and takes a number from its upper bits.
ghost use Rattle.std.specs.Prelude.{◌≡◌, ◌<◌};
ghost use Rattle.mir_trial.specs.Draws.{drawn, next};

/// The state from which numbers are drawn. The same state gives the same numbers on every machine.
#[derive(Drop)]
pub struct Draws {
    /// The state that the last draw left; before the first draw, the number of the trial program.
    pub state: u64,
}

impl Draws {
    /// Draws a number below `k`.
    pub fn draw(&mut self, k: u64) -> u64
        requires { 0 < k }
        ensures value { result ≡ drawn k (next self.old.state) }
        ensures below { result < k }
        ensures state { self.new.state ≡ next self.old.state }
    {
        self.state = next(self.state);
        drawn(self.state, k)
    }
}

/// The state after one more draw: a linear congruential step, modulo 2^64.
fn next(state: u64) -> u64
    ensures { result ≡ next state }
{
    state
        .wrapping_mul(6_364_136_223_846_793_005)
        .wrapping_add(1_442_695_040_888_963_407)
}

/// The number below `k` that is drawn when a draw has left this state: its upper 31 bits, modulo `k`.
fn drawn(state: u64, k: u64) -> u64
    requires { 0 < k }
    ensures value { result ≡ drawn k state }
    ensures below { result < k }
{
    (state >> 33) % k
}
