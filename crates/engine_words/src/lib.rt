// Little-endian numbers of 32 bits in bytes.
#![tactic(auto)]

ghost use Rattle.std.specs.Prelude.{◌+◌, ◌*◌, ◌<◌, ◌≤◌, ◌≡◌, length};
ghost use Rattle.std.specs.Int.{w32};
ghost use Rattle.std.proofs.Common.{to_z};
ghost use Rattle.engine_words.specs.Words.{number_at, signed_at, words_at};

#[tactic(auto, unfolding(crate::specs::Words::number_at))]
pub fn number(bytes: &[u8], at: usize) -> u32
    requires { at + 4 ≤ length bytes.now }
    ensures { (result ≡ number_at bytes.now at) × (result < 4294967296) }
{
    u32::from_le_bytes([bytes[at], bytes[at + 1], bytes[at + 2], bytes[at + 3]])
}

// Two's complement.
pub fn signed(n: u32) -> i32
    ensures { result ≡ to_z w32 n }
{
    n.cast_signed()
}

fn word(bytes: &[u8], at: usize) -> i32
    requires { at + 4 ≤ length bytes.now }
    ensures { result ≡ signed_at bytes.now at }
{
    signed(number(bytes, at))
}

// As many words as there is room for, from `at` on.
pub fn words(bytes: &[u8], at: usize, out: &mut [i32])
    requires { at + 4 * length out.old ≤ length bytes.now }
    ensures { out.new ≡ words_at bytes.now at (length out.old) }
{
    for (i, z) in out.iter_mut().enumerate() {
        *z = word(bytes, at + 4 * i);
    }
}
