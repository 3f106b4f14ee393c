//! A festival's own counting rule: characters that fill two columns of the screen count twice.
//!
//! It stands for a rule that a customer writes: the crate knows the trait of `text` and nothing of the three supplied
//! rules, and proves by itself that the rule keeps the terms.
#![tactic(auto)]

ghost use Rattle.festival.specs.Wide.{wide_twice, wide_blocks, in_blocks};
ghost use Rattle.std.specs.Prelude.{nat_le, refl};
ghost use Rattle.festival.specs.WideTwiceRuleLemmas.{at_most_two, none_above};
ghost use Rattle.std.proofs.Common.{◌∙◌};
ghost use Rattle.std.proofs.lemmas.Bool.{cond-false, lt-leb};

use text::{CountingRule, LAST_CODE_POINT};

/// Wide characters weigh 2 and every other code point 1.
#[derive(Clone, Copy, Debug, Default, PartialEq, Eq)]
pub struct WideTwice;

impl CountingRule for WideTwice {
    ghost weight = { λ _ c. wide_twice c };

    ghost small = { λ rule c. at_most_two (in_blocks c wide_blocks) (nat_le c 1114111) };

    ghost outside = { λ rule c above. cond-false _ _ _ (none_above c wide_blocks above refl) ∙ cond-false _ _ _ (lt-leb c 1114111 above) };

    fn weight_of(&self, code_point: u32) -> u8 {
        match code_point {
            // Hangul letters that begin a syllable
            0x1100..=0x115F => 2,
            // ideographs' parts and punctuation, kana, Hangul letters, squared words
            0x2E80..=0x303E | 0x3041..=0x33FF => 2,
            // ideographs
            0x3400..=0x4DBF | 0x4E00..=0x9FFF => 2,
            // Yi syllables, Hangul syllables
            0xA000..=0xA4CF | 0xAC00..=0xD7A3 => 2,
            // compatibility ideographs and their vertical forms
            0xF900..=0xFAFF | 0xFE30..=0xFE4F => 2,
            // full-width letters and signs
            0xFF01..=0xFF60 | 0xFFE0..=0xFFE6 => 2,
            // the ideographs of planes 2 and 3
            0x2_0000..=0x3_FFFD => 2,
            0..=LAST_CODE_POINT => 1,
            _ => 0,
        }
    }
}

#[cfg(test)]
mod tests {
    use super::*;
    use text::weigh_text;

    #[test]
    fn wide_characters_count_twice(rt: HostRuntime) {
        assert_eq!(rt; weigh_text(&WideTwice, "映画 a".as_bytes()), Ok(6));
        assert_eq!(rt;
            weigh_text(&WideTwice, "ｶﾅ カナ".as_bytes()),
            Ok(7),
            "half-width and full-width kana"
        );
        assert_eq!(rt; WideTwice.weight_of(0xD7A3), 2);
        assert_eq!(rt; WideTwice.weight_of(0xD7A4), 1);
        assert_eq!(rt; WideTwice.weight_of(1_114_112), 0);
    }
}
