// A figure against two thresholds: the limits of a verdict.
ghost use Rattle.std.specs.Prelude.{◌≡◌};
ghost use Rattle.value.specs.Value.{verdict};

// How a figure compares with two limits.
#[derive(Clone, Copy)]
pub enum Verdict {
    // It is over the upper limit.
    Above,
    // It is under the lower limit.
    Below,
    // Neither: the figure itself.
    Within(u64),
}

// Above where the figure is over hi, below where it is under lo, else the figure itself.
#[tactic(auto, unfolding(crate::specs::Value::verdict))]
pub fn verdict_of(lo: u64, hi: u64, figure: u64) -> Verdict
    ensures { result ≡ verdict lo hi figure }
{
    if hi < figure {
        return Verdict::Above;
    }
    if figure < lo {
        return Verdict::Below;
    }
    Verdict::Within(figure)
}
