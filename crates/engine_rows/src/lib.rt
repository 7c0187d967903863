// Eight words of a state, read as a telegram or put.
#![tactic(auto)]

ghost use Rattle.std.specs.Prelude.{◌≡◌, ◌+◌, ◌≤◌, length};
ghost use Rattle.machine.specs.State.{telegram_in, words_of, put_words};

use machine::Telegram;

// Eight words as a telegram.
pub fn telegram_in(st: &[i32], at: usize) -> Telegram
    requires { at + 8 ≤ length st.now }
    ensures { result ≡ telegram_in st.now at }
{
    Telegram {
        sender: st[at],
        receiver: st[at + 1],
        port: st[at + 2],
        name: st[at + 3],
        d0: st[at + 4],
        d1: st[at + 5],
        d2: st[at + 6],
        d3: st[at + 7],
    }
}

// A telegram as eight words.
pub fn words_of(t: Telegram) -> [i32; 8]
    ensures { result ≡ words_of t }
{
    [t.sender, t.receiver, t.port, t.name, t.d0, t.d1, t.d2, t.d3]
}

// Eight words.
pub fn put_words(st: &mut [i32], at: usize, words: [i32; 8])
    requires { at + 8 ≤ length st.old }
    ensures { st.new ≡ put_words st.old at words }
{
    st[at..at + 8].copy_from_slice(&words);
}
