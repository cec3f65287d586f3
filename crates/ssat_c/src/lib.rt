// The operations for programs in other languages: numbers in, a number out, and the values in an array or a tally that
// the caller lends. include/ssat.h declares them.
#![tactic(auto)]

ghost use Rattle.std.specs.Prelude.{◌≡◌, length};
ghost use Rattle.answer.specs.Answer.{buffer_after};
ghost use Rattle.rule_file.specs.Reader.{read_file, read_small};
ghost use Rattle.value.specs.Value.{figure_file, verdict_file};
ghost use Rattle.value.specs.Cut.{cut_file};
ghost use Rattle.points.specs.Points.{plotted_point, marks_file, point_file};
ghost use Rattle.derivation.specs.Check.{check_file};
ghost use Rattle.written_derivation.specs.Derive.{derive_file, length_of};
ghost use Rattle.repair.specs.Repair.{repair_file, repair_answer};
ghost use Rattle.tally.specs.Tally.{kind_of, step};
ghost use Rattle.c_convention.specs.Convention.{code, filled, ratio_values, verdict_values, bounds_values};
ghost use Rattle.ssat_c.specs.Interface.{header_values, closing_values, length_values, repair_values, mark_values, point_after};

use answer::Refusal;
use c_convention::{bounds_values, hand, ratio_values, verdict_values};
use derivation::Closing;
use derivation_check::check;
use derivation_writer::derive;
use points::{Marks, Plot};
use repair::{Repairs, repair};
use rule_file::{Header, read, read_small};
use solver::{cut, figure, plot, verdict};
use tally::{Kind, Tally};

// n, m, prefix start, whole, of either reader.
fn header_values(h: Header) -> [u64; 4]
    ensures { result ≡ header_values h }
{
    [
        h.variables as u64,
        h.clauses as u64,
        h.prefix as u64,
        h.whole,
    ]
}

// Closing value, whole.
fn closing_values(x: Closing) -> [u64; 4]
    ensures { result ≡ closing_values x }
{
    [x.value, x.whole, 0, 0]
}

// The derivation's length in bytes.
fn length_values(length: usize) -> [u64; 4]
    ensures { result ≡ length_values length }
{
    [length as u64, 0, 0, 0]
}

// The repaired file's length in bytes, clauses dropped, literals dropped, clauses reordered.
fn repair_values(x: Repairs) -> [u64; 4]
    ensures { result ≡ repair_values x }
{
    [
        x.bytes as u64,
        x.clauses as u64,
        x.literals as u64,
        x.reordered as u64,
    ]
}

// How many marks there are.
fn mark_values(plot: Plot) -> [u64; 4]
    ensures { result ≡ mark_values plot.marks }
{
    match plot.marks {
        Marks::One(_) => [1, 0, 0, 0],
        Marks::Two(_, _) => [2, 0, 0, 0],
    }
}

// Low mark, high mark, open share; a refusal leaves what is there.
fn put_point(point: &mut [f64; 3], answer: Result<Plot, Refusal>)
    ensures { point.new ≡ point_after (plotted_point answer) point.old }
{
    if let Ok(plot) = answer {
        let made = plot.point();
        point[0] = made.low;
        point[1] = made.high;
        point[2] = made.open_share;
    }
}

#[unsafe(no_mangle)]
pub extern "C" fn ssat_read(rule: &[u8], out: &mut [u64; 4]) -> u32
    ensures returned { result ≡ code (read_file rule.now) }
    ensures stored { out.new ≡ filled header_values (read_file rule.now) out.old }
{
    hand(out, read(rule).map(header_values))
}

// The same by the small reader.
#[unsafe(no_mangle)]
pub extern "C" fn ssat_read_small(rule: &[u8], out: &mut [u64; 4]) -> u32
    ensures returned { result ≡ code (read_small rule.now) }
    ensures stored { out.new ≡ filled header_values (read_small rule.now) out.old }
{
    hand(out, read_small(rule).map(header_values))
}

#[unsafe(no_mangle)]
pub extern "C" fn ssat_figure(rule: &[u8], out: &mut [u64; 4]) -> u32
    ensures returned { result ≡ code (figure_file rule.now) }
    ensures stored { out.new ≡ filled ratio_values (figure_file rule.now) out.old }
{
    hand(out, figure(rule).map(ratio_values))
}

#[unsafe(no_mangle)]
pub extern "C" fn ssat_verdict(rule: &[u8], lo: u64, hi: u64, out: &mut [u64; 4]) -> u32
    ensures returned { result ≡ code (verdict_file rule.now lo hi) }
    ensures stored { out.new ≡ filled verdict_values (verdict_file rule.now lo hi) out.old }
{
    hand(out, verdict(rule, lo, hi).map(verdict_values))
}

// The verdict, whose result is also taken into the tally that is lent.
#[unsafe(no_mangle)]
pub extern "C" fn ssat_tally(
    rule: &[u8],
    lo: u64,
    hi: u64,
    tally: &mut Tally,
    out: &mut [u64; 4],
) -> u32
    ensures returned { result ≡ code (verdict_file rule.now lo hi) }
    ensures stored { out.new ≡ filled verdict_values (verdict_file rule.now lo hi) out.old }
    ensures taken_in { tally.new ≡ step tally.old (kind_of (verdict_file rule.now lo hi)) }
{
    let answer = verdict(rule, lo, hi);
    tally.absorb(Kind::from(answer));
    hand(out, answer.map(verdict_values))
}

#[unsafe(no_mangle)]
pub extern "C" fn ssat_cut(rule: &[u8], level: u64, out: &mut [u64; 4]) -> u32
    ensures returned { result ≡ code (cut_file rule.now level) }
    ensures stored { out.new ≡ filled bounds_values (cut_file rule.now level) out.old }
{
    hand(out, cut(rule, level).map(bounds_values))
}

#[unsafe(no_mangle)]
pub extern "C" fn ssat_point(
    rule: &[u8],
    level: u64,
    point: &mut [f64; 3],
    out: &mut [u64; 4],
) -> u32
    ensures returned { result ≡ code (point_file rule.now level) }
    ensures stored { out.new ≡ filled mark_values (marks_file rule.now level) out.old }
    ensures drawn { point.new ≡ point_after (point_file rule.now level) point.old }
{
    let answer = plot(rule, level);
    put_point(point, answer);
    hand(out, answer.map(mark_values))
}

#[unsafe(no_mangle)]
pub extern "C" fn ssat_check<'a>(rule: &'a [u8], derivation: &'a [u8], out: &mut [u64; 4]) -> u32
    ensures returned { result ≡ code (check_file rule.now derivation.now) }
    ensures stored { out.new ≡ filled closing_values (check_file rule.now derivation.now) out.old }
{
    hand(out, check(rule, derivation).map(closing_values))
}

#[unsafe(no_mangle)]
pub extern "C" fn ssat_derive(rule: &[u8], buffer: &mut [u8], out: &mut [u64; 4]) -> u32
    ensures returned { result ≡ code (length_of (derive_file rule.now (length buffer.old))) }
    ensures stored { out.new ≡ filled length_values (length_of (derive_file rule.now (length buffer.old))) out.old }
    ensures written { buffer.new ≡ buffer_after (derive_file rule.now (length buffer.old)) buffer.old }
{
    hand(out, derive(rule, buffer).map(length_values))
}

#[unsafe(no_mangle)]
pub extern "C" fn ssat_repair(rule: &[u8], buffer: &mut [u8], out: &mut [u64; 4]) -> u32
    ensures returned { result ≡ code (repair_answer rule.now (length buffer.old)) }
    ensures stored { out.new ≡ filled repair_values (repair_answer rule.now (length buffer.old)) out.old }
    ensures written { buffer.new ≡ buffer_after (repair_file rule.now (length buffer.old)) buffer.old }
{
    hand(out, repair(rule, buffer).map(repair_values))
}
