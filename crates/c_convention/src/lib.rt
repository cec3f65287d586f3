// An answer as a C function hands it over: a number returned, and four numbers in the array that the caller lends.
#![tactic(auto)]

ghost use Rattle.std.specs.Prelude.{◌≡◌};
ghost use Rattle.c_convention.specs.Convention.{code, filled, as_they_are, ratio_values, verdict_values, bounds_values};

use answer::Refusal;
use bounds::Bounds;
use value::Ratio;
use value::thresholds::Verdict;

// Hands over four numbers, which fill out, and returns 0; or a refusal, whose number it returns, and whose place it
// stores where it names one: all else in out stays.
pub fn hand(out: &mut [u64; 4], answer: Result<[u64; 4], Refusal>) -> u32
    ensures value { result ≡ code answer }
    ensures out_after { out.new ≡ filled as_they_are answer out.old }
{
    match answer {
        Ok(values) => {
            out.copy_from_slice(&values);
            0
        }
        Err(refusal) => {
            if let Some(place) = refusal.place() {
                out[0] = place as u64;
            }
            refusal.number()
        }
    }
}

// Figure, whole.
pub fn ratio_values(x: Ratio) -> [u64; 4]
    ensures { result ≡ ratio_values x }
{
    [x.figure, x.whole, 0, 0]
}

// 0 within, 1 above, 2 below; the figure where within, else 0.
pub fn verdict_values(x: Verdict) -> [u64; 4]
    ensures { result ≡ verdict_values x }
{
    match x {
        Verdict::Above => [1, 0, 0, 0],
        Verdict::Below => [2, 0, 0, 0],
        Verdict::Within(figure) => [0, figure, 0, 0],
    }
}

// Lower, upper, open weight.
pub fn bounds_values(x: Bounds) -> [u64; 4]
    ensures { result ≡ bounds_values x }
{
    [x.lower, x.upper, x.undetermined, 0]
}
