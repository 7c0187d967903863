// Answers of a list in words: eleven for each.
#![tactic(auto)]

ghost use Rattle.std.specs.Prelude.{◌+◌, ◌<◌, ◌≤◌, ◌≡◌, length};
ghost use Rattle.machine.specs.State.{word_of, put_words};
ghost use Rattle.machine_lists.specs.Words.{words_of_answer, handed_words, answer_words, number_below, handed_in, answer_in};

use machine::{Answer, Telegram};

// What an answer handed outside, in the last eight of its words: 1 stands where a telegram has its sender.
fn handed_words(handed: Option<Telegram>) -> [i32; 8]
    ensures { result ≡ handed_words handed }
{
    match handed {
        None => [0; 8],
        Some(t) => [1, t.receiver, t.port, t.name, t.d0, t.d1, t.d2, t.d3],
    }
}

// An answer in eleven words.
pub fn put_answer(answers: &mut [i32], at: usize, a: Answer)
    requires { (at + words_of_answer ≤ length answers.old) × (a.steps < 2147483648) }
    ensures { answers.new ≡ put_words answers.old at (answer_words a) }
{
    answers[at] = a.number as i32;
    answers[at + 1] = a.steps as i32;
    answers[at + 2] = a.dropped as i32;
    engine_rows::put_words(answers, at + 3, handed_words(a.handed));
}

// A word as a number below `end`. What `put_answer` put is one; any other word is 0.
fn number_below(answers: &[i32], at: usize, end: usize) -> usize
    requires { (at < length answers.now) × (0 < end) }
    ensures { (result ≡ number_below end (word_of answers.now at)) × (result < end) }
{
    if engine_valid_words::below_at(answers, at, end) {
        return engine_valid_words::number_at(answers, at);
    }
    0
}

// What an answer handed outside, by the last eight of its words.
fn handed_at(answers: &[i32], at: usize) -> Option<Telegram>
    requires { at + 8 ≤ length answers.now }
    ensures { result ≡ handed_in answers.now at }
{
    if engine_valid_words::zero_at(answers, at) {
        return None;
    }
    Some(engine_rows::telegram_in(answers, at))
}

// An answer from its eleven words.
pub fn answer_at(answers: &[i32], at: usize) -> Answer
    requires { at + words_of_answer ≤ length answers.now }
    ensures { result ≡ answer_in answers.now at }
{
    let number = number_below(answers, at, 256);
    let steps = number_below(answers, at + 1, 2147483648);
    let dropped = number_below(answers, at + 2, 256);
    let handed = handed_at(answers, at + 3);
    Answer {
        number: number as u8,
        steps: steps as u32,
        dropped: dropped as u8,
        handed: handed,
    }
}
