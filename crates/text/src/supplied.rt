//! One of the supplied rules, chosen at run time.
ghost use Rattle.text.specs.Supplied.{supplied_weight};
ghost use Rattle.std.proofs.Common.{arith, rules};
ghost use Rattle.std.proofs.lemmas.Bool.Decides.{nat_tests};
ghost use Rattle.text.specs.declared.supplied.SuppliedRule.TheVariants.{BlankCounting, BlankFree, RowTable};
ghost use Rattle.text.specs.RowLaws.{at_most_four};

use crate::blanks::{BlankCounting, BlankFree};
use crate::rows::RowTable;
use crate::rules::CountingRule;

/// One of the three supplied rules.
// An enum, which lies in fixed memory, and no `dyn` rule, which would have to be boxed to be kept.
#[derive(Clone, Copy, Debug, PartialEq, Eq)]
pub enum SuppliedRule {
    BlankCounting(BlankCounting),
    BlankFree(BlankFree),
    RowTable(RowTable),
}

impl CountingRule for SuppliedRule {
    ghost weight = { supplied_weight };

    ghost small = { elim [
      | BlankCounting rule ↦ λ c. Prim.search rules
      | BlankFree rule ↦ λ c. Prim.search rules
      | RowTable table ↦ at_most_four table
    ] };

    ghost outside = { Prim.search rules };

    fn weight_of(&self, code_point: u32) -> u8 {
        match self {
            SuppliedRule::BlankCounting(rule) => rule.weight_of(code_point),
            SuppliedRule::BlankFree(rule) => rule.weight_of(code_point),
            SuppliedRule::RowTable(rule) => rule.weight_of(code_point),
        }
    }
}
