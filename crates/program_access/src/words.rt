// A decision in words, and words with a number.
ghost use Rattle.std.specs.Prelude.{◌≡◌, ◌∷◌, ◌++◌, [], ◌+◌, ◌≤◌, length};
ghost use Rattle.sets.specs.Quantifiers.{one_if};
ghost use Rattle.ledger.specs.Answer.{decide_answer};
ghost use Rattle.text.specs.Text.{decimal};
ghost use Rattle.program_access.specs.Words.{record_word, colon_word};
ghost use Rattle.program_access.specs.Table.{effect_text, decision_text, answer_text, numbered_text};

use ledger::answer::{Decision, NotInRegister};
use text::Text;

#[tactic(auto, unfolding(crate::specs::Words::permit_word, crate::specs::Words::deny_word))]
fn put_effect<const N: usize>(out: &mut Text<N>, permit: bool)
    requires { length out.old + 6 ≤ N }
    ensures text { out.new ≡ out.old ++ effect_text (one_if permit) }
    ensures growth { length out.new ≤ length out.old + 6 }
{
    if permit {
        out.push_bytes(b"permit");
    } else {
        out.push_bytes(b"deny");
    }
}

fn put_directive<const N: usize>(out: &mut Text<N>, permit: bool, number: u16)
    requires { length out.old + 48 ≤ N }
    ensures text { out.new ≡ out.old ++ decision_text (one_if permit ∷ 3 ∷ number ∷ []) }
    ensures growth { length out.new ≤ length out.old + 48 }
{
    put_effect(out, permit);
    out.push_bytes(b", basis 3 (directive ");
    out.push_decimal(u64::from(number));
    out.push_bytes(b")");
}

#[tactic(auto, unfolding(crate::specs::Words::basis_word, crate::specs::Words::open_word, crate::specs::Words::default_word, crate::specs::Words::close_word, text::specs::Text::decimal_by))]
fn put_default<const N: usize>(out: &mut Text<N>, permit: bool)
    requires { length out.old + 48 ≤ N }
    ensures text { out.new ≡ out.old ++ decision_text (one_if permit ∷ 4 ∷ []) }
    ensures growth { length out.new ≤ length out.old + 48 }
{
    put_effect(out, permit);
    out.push_bytes(b", basis 4 (default)");
}

#[tactic(auto, unfolding(crate::specs::Words::permit_word, crate::specs::Words::basis_word, crate::specs::Words::open_word, crate::specs::Words::patient_word, crate::specs::Words::author_word, crate::specs::Words::close_word, crate::specs::Words::refused_word, text::specs::Text::decimal_by, crate::specs::Table::answer_text))]
pub fn put_answer<const N: usize>(out: &mut Text<N>, a: Result<Decision, NotInRegister>)
    requires { length out.old + 48 ≤ N }
    ensures text { out.new ≡ out.old ++ answer_text (decide_answer a) }
    ensures growth { length out.new ≤ length out.old + 48 }
{
    match a {
        Ok(Decision::Patient) => out.push_bytes(b"permit, basis 1 (patient)"),
        Ok(Decision::Author) => out.push_bytes(b"permit, basis 2 (author)"),
        Ok(Decision::Directive { permit, number }) => put_directive(out, permit, number),
        Ok(Decision::Default { permit }) => put_default(out, permit),
        Err(NotInRegister) => out.push_bytes(b"refused, question 17"),
    }
}

// The decision on record i. `as`, since std has no `From` from `usize` to `u64`, and its `TryFrom` would answer a `Result` that cannot fail.
#[tactic(auto, unfolding(crate::specs::Words::record_word, crate::specs::Words::colon_word))]
pub fn put_decision<const N: usize>(out: &mut Text<N>, i: usize, a: Result<Decision, NotInRegister>)
    requires { length out.old + 77 ≤ N }
    ensures text { out.new ≡ out.old ++ (record_word ++ decimal i ++ colon_word ++ answer_text (decide_answer a)) }
    ensures growth { length out.new ≤ length out.old + 77 }
{
    out.push_bytes(b"record ");
    out.push_decimal(i as u64);
    out.push_bytes(b": ");
    put_answer(out, a);
}

// A line of words and a number.
pub fn put_numbered<const N: usize>(out: &mut Text<N>, words: &[u8], n: u64)
    requires { length out.old + (length words.now + 21) ≤ N }
    ensures text { out.new ≡ out.old ++ numbered_text words.now n }
    ensures growth { length out.new ≤ length out.old + (length words.now + 21) }
{
    out.push_bytes(words);
    out.push_decimal(n);
    out.push_bytes(b"\n");
}
