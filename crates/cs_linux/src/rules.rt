//! The rule that a refusal names, found by its text. A new rule must be added to `rules_of`, too:
//! the clause `each` of `rule_of` requires it.
ghost use Rattle.std.specs.Prelude.{◌≡◌, IfSome, Some};
ghost use Rattle.cs_names.specs.Rules.{text_of};
ghost use Rattle.cs_names.specs.declared.rule_id.RuleId.{RuleId};
ghost use Rattle.cs_linux.specs.Numbers.{place_in_letter, rule_numbered, rules_of};

use cs_names::RuleId;

/// The rules of a letter, in the order of their numbers; an empty list if no rule has the letter.
#[tactic(auto, unfolding(crate::specs::Numbers::rules_of))]
fn rules_of(letter: u8) -> &'static [RuleId]
    ensures { result.now ≡ rules_of letter }
{
    use RuleId::*;
    match letter {
        b'S' => &[S1, S2, S3, S4, S5],
        b'L' => &[L1],
        b'A' => &[A1, A2, A3, A4, A5, A6],
        b'K' => &[K1, K2, K3, K4, K5, K6, K7, K8],
        b'O' => &[O1, O2, O3, O4, O5, O6, O7, O8, O9, O10],
        b'C' => &[C1, C2, C3, C4, C5, C6, C7, C8, C9, C10],
        b'G' => &[G1, G2, G3, G4, G5],
        b'E' => &[E1, E2, E3, E4],
        b'M' => &[M1, M2, M3, M4, M5],
        b'N' => &[N1],
        b'H' => &[H1, H2],
        b'Q' => &[Q1, Q2, Q3, Q4, Q5, Q6, Q7, Q8, Q9, Q10, Q11, Q12, Q13, Q14],
        _ => &[],
    }
}

/// The place of a rule among those of its letter, from 0, by the two bytes after the letter: a
/// digit and a space, or two digits. For other bytes it is some place that means nothing; `rule_of`
/// compares the whole text.
#[tactic(auto, unfolding(crate::specs::Numbers::place_in_letter))]
fn place_in_letter(first: u8, second: u8) -> usize
    ensures { result ≡ place_in_letter first second }
{
    let (first, second) = (first as usize, second as usize);
    // a space is 32, and the digit 1 is 49; two digits count from "01", which is 48 * 10 + 49
    if second == 32 {
        first.saturating_sub(49)
    } else {
        (first * 10 + second).saturating_sub(529)
    }
}

/// The only rule that may have this text, by its first three bytes. None if it has fewer, or if no
/// rule has that letter and number. The rest of the text isn't compared.
fn rule_numbered(text: &[u8]) -> Option<RuleId>
    ensures { result ≡ rule_numbered text.now }
{
    let [letter, first, second, ..] = text else {
        return None;
    };
    rules_of(*letter)
        .get(place_in_letter(*first, *second))
        .copied()
}

/// The rule with this text; None if no rule has it.
pub fn rule_of(text: &str) -> Option<RuleId>
    ensures found { IfSome result (λ rule. text_of rule ≡ text.now) }
    ensures each { (rule : RuleId) → text.now ≡ text_of rule → result ≡ Some rule }
{
    let rule = rule_numbered(text.as_bytes())?;
    if rule.text() == text {
        Some(rule)
    } else {
        None
    }
}
