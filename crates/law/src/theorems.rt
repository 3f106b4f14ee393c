//! The law, as what functions without code promise.
ghost use Rattle.law.specs.Examples.{Worked};
ghost use Rattle.law.specs.Law.{LawOverRuns, LargestIs};

use text::CountingRule;

/// The law over runs, under every counting rule.
///
/// Whatever calls are made on a new programme, in any order and number and refused ones included, and whatever its slab held
/// at first: every answer lies round the true sum, every track keeps the buckets that insertion leaves and few of them, every
/// refusal has its cause, an unsound stretch is never found, and calls on different tracks can change places.
pub fn law_over_runs<R: CountingRule>(rule: &R)
    ensures holds { LawOverRuns (R.weight rule.now) }
{}

/// The exponent by which a room is worked out is the largest whole number r with l × (2^r − 1) below N × R.
pub fn largest_is_largest()
    ensures holds { LargestIs }
{}

/// The worked examples: what the definitions come to in a table of cases.
pub fn worked_examples()
    ensures holds { Worked }
{}
