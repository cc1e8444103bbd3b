ghost use Rattle.std.specs.Prelude.{◌≡◌, ◌≤◌, Bool, if◌then◌else◌};

/// Decides when a search goes back to its start, by a closure over the number of learned clauses so
/// far. The closure is asked after each learned clause. These are kept, as in Chaff (M. W.
/// Moskewicz, C. F. Madigan, Y. Zhao, L. Zhang and S. Malik, 2001).
#[derive(Drop)]
pub struct Restart {
    asks: Box<dyn Fn(u64) -> bool>,
    ghost callable: { IsAlwaysCallable asks },
}

impl Restart {
    /// Creates a restart policy by the closure `asks`.
    pub fn new(asks: Box<dyn Fn(u64) -> bool>) -> Restart
        requires { IsAlwaysCallable asks }
        ensures { result.asks ≡ asks }
    {
        Restart { asks }
    }

    // Returns the level to go back to after `steps` steps: 0 if a restart is due, otherwise
    // `level`.
    pub(crate) fn level_after(&self, steps: u64, level: u64) -> u64
        ensures answered { (due : Bool) × post self.now.asks steps due ×
            result ≡ (if due then 0 else level) }
        ensures level { result ≤ level }
    {
        if self.is_due(steps) { 0 } else { level }
    }

    fn is_due(&self, steps: u64) -> bool
        ensures { post self.now.asks steps result }
    {
        (self.asks)(steps)
    }
}
