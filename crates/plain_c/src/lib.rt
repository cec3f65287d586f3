// Document 01's plain forms of figure, verdict and cut for programs in other languages, to compare with those that
// include/ssat.h declares. No part of that interface; parameters, numbers returned and numbers stored are the same.
#![tactic(auto)]

ghost use Rattle.std.specs.Prelude.{◌≡◌};
ghost use Rattle.value.specs.Value.{figure_file, verdict_file};
ghost use Rattle.value.specs.Cut.{cut_file};
ghost use Rattle.c_convention.specs.Convention.{code, filled, ratio_values, verdict_values, bounds_values};

use c_convention::{bounds_values, hand, ratio_values, verdict_values};
use plain_bounds::cut;
use plain_value::{figure, verdict};

#[unsafe(no_mangle)]
pub extern "C" fn plain_figure(rule: &[u8], out: &mut [u64; 4]) -> u32
    ensures returned { result ≡ code (figure_file rule.now) }
    ensures stored { out.new ≡ filled ratio_values (figure_file rule.now) out.old }
{
    hand(out, figure(rule).map(ratio_values))
}

#[unsafe(no_mangle)]
pub extern "C" fn plain_verdict(rule: &[u8], lo: u64, hi: u64, out: &mut [u64; 4]) -> u32
    ensures returned { result ≡ code (verdict_file rule.now lo hi) }
    ensures stored { out.new ≡ filled verdict_values (verdict_file rule.now lo hi) out.old }
{
    hand(out, verdict(rule, lo, hi).map(verdict_values))
}

#[unsafe(no_mangle)]
pub extern "C" fn plain_cut(rule: &[u8], level: u64, out: &mut [u64; 4]) -> u32
    ensures returned { result ≡ code (cut_file rule.now level) }
    ensures stored { out.new ≡ filled bounds_values (cut_file rule.now level) out.old }
{
    hand(out, cut(rule, level).map(bounds_values))
}
