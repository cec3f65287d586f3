// What the marks and the point of a cut answer: its exact numbers, each divided by the whole, as doubles; what is read
// before; and how the numbers become doubles. The definitions are in specs/; what is proved of the marks in proofs/.
#![tactic(auto)]

ghost use Rattle.std.specs.Prelude.{◌≡◌, ◌≤◌};
ghost use Rattle.limits.specs.Limits.{max_plotted};
ghost use Rattle.rule_file.specs.Opened.{Opened};
ghost use Rattle.points.specs.Points.{share, marks_of, point_of, point_for, read_to_plot};
ghost use Rattle.points.specs.Plotted.{Plotted};

use answer::Refusal;
use bounds::Bounds;
use limits::MAX_PLOTTED;
use rule_file::RuleFile;
use value::read_with_level;

// The marks of a cut.
#[derive(Clone, Copy)]
pub enum Marks {
    // Lower and upper number are the same: one mark for both.
    One(f64),
    // The mark of the lower number and that of the upper.
    Two(f64, f64),
}

// The point of a cut: its low and its high mark, and its open weight as a share of the whole.
#[derive(Clone, Copy)]
pub struct Point {
    pub low: f64,
    pub high: f64,
    pub open_share: f64,
}

// Both at once: the marks, and the open share.
#[derive(Clone, Copy)]
pub struct Plot {
    pub marks: Marks,
    pub open_share: f64,
}

// The file that marks or a point are asked of, as for a cut; then the whole may not be over 2^53.
#[tactic(auto, unfolding(crate::specs::Points::read_to_plot))]
pub fn read_to_plot<'a>(rule: &'a [u8], level: u64) -> Result<RuleFile<'a>, Refusal>
    ensures answer { Opened rule.now (read_to_plot rule.now level) result }
{
    let file = read_with_level(rule, level)?;
    if MAX_PLOTTED < file.header.whole {
        return Err(Refusal::WholeOverPlotted);
    }
    Ok(file)
}

// A number out of the whole as a double: neither cast loses anything, so the division alone rounds.
#[tactic(auto, unfolding(crate::specs::Points::share))]
fn share_of(part: u64, whole: u64) -> f64
    requires part_le_whole { part ≤ whole }
    requires whole_le_max_plotted { whole ≤ max_plotted }
    ensures { result ≡ share part whole }
{
    part as f64 / whole as f64
}

// One mark where the exact lower and upper number are the same, else two.
#[tactic(auto, unfolding(crate::specs::Points::marks_of))]
fn marks_of(bounds: Bounds, whole: u64) -> Marks
    requires { Plotted bounds whole }
    ensures { result ≡ marks_of bounds whole }
{
    if bounds.lower == bounds.upper {
        return Marks::One(share_of(bounds.lower, whole));
    }
    Marks::Two(share_of(bounds.lower, whole), share_of(bounds.upper, whole))
}

// Marks and open share of three numbers out of a whole.
#[tactic(auto, unfolding(crate::specs::Points::point_for))]
pub fn plot_of(bounds: Bounds, whole: u64) -> Plot
    requires { Plotted bounds whole }
    ensures marks { result.marks ≡ marks_of bounds whole }
    ensures point { point_of result.marks result.open_share ≡ point_for bounds whole }
{
    Plot {
        marks: marks_of(bounds, whole),
        open_share: share_of(bounds.undetermined, whole),
    }
}

impl Plot {
    // The point of these marks: a single mark is both low and high.
    pub fn point(self) -> Point
        ensures { result ≡ point_of self.marks self.open_share }
    {
        let open_share = self.open_share;
        match self.marks {
            Marks::One(mark) => Point {
                low: mark,
                high: mark,
                open_share,
            },
            Marks::Two(low, high) => Point {
                low,
                high,
                open_share,
            },
        }
    }
}
