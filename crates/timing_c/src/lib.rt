// The functions of the crate `timing` as C functions, under the same names and with the same clauses.
#![tactic(auto)]

ghost use Rattle.std.specs.Prelude.{◌≡◌};
ghost use Rattle.timing.specs.Answers.{timing_core, timing_read};

#[unsafe(no_mangle)]
pub extern "C" fn timing_core(s: &[i32], points: &[i32]) -> u64
    ensures { result ≡ timing_core s.now points.now }
{
    timing::timing_core(s, points)
}

#[unsafe(no_mangle)]
pub extern "C" fn timing_read(s: &[i32], k: usize) -> i32
    ensures { result ≡ timing_read s.now k }
{
    timing::timing_read(s, k)
}
