// Answers that hand nothing outside, and what a refused event leaves.
#![tactic(auto)]

ghost use Rattle.std.specs.Prelude.{◌≡◌, length, None};
ghost use Rattle.machine.specs.Play.{answer as answer_of};

use machine::Answer;

// An answer without a telegram.
pub fn answered(number: u8, steps: u32) -> Answer
    ensures { result ≡ answer_of number steps None }
{
    Answer {
        number,
        steps,
        dropped: 0,
        handed: None,
    }
}

// An event's answer: "6 to 10", 11 and 12 leave a copy of the old state.
pub fn answer(old: &[i32], st: &mut [i32], number: u8, steps: u32) -> Answer
    requires { length old.now ≡ length st.old }
    ensures { (result ≡ answer_of number steps None) × (number ≡ 0 → st.new ≡ st.old) × ((number ≡ 0 → ⊥) → st.new ≡ old.now) }
{
    if number == 0 {
        return answered(number, steps);
    }
    engine_copies::copy(old, st);
    answered(number, steps)
}
