// A telegram that waits, removed.
#![tactic(auto)]

ghost use Rattle.std.specs.Prelude.{◌≡◌, List, ℕ, ◌<◌};
ghost use Rattle.machine.specs.State.{waiting, without_telegram};
ghost use Rattle.machine.specs.Valid.{OfSheet};
ghost use Rattle.engine_queue.specs.Laid.{Laid};

// Telegram j "is removed, later ones close up"; the place of the last one is then unused.
#[tactic(auto, using(engine_queue::proofs::Laws::waiting_limit))]
pub fn remove(st: &mut [i32], j: usize)
    requires { Laid st.old × (j < waiting st.old) }
    ensures { (s : List ℕ) → OfSheet s st.old → st.new ≡ without_telegram s st.old j }
{
    let n = engine_queue::waiting_count(st) - 1;
    let end = engine_store::place_at(st.len(), n);
    let at = engine_store::place_at(st.len(), j);
    st.copy_within(at + 8..end + 8, at);
    engine_rows::put_words(st, end, [0; 8]);
    engine_store::set_word(st, 0, n as i32);
}
