// All words of a state, copied or set to 0.
#![tactic(auto)]

ghost use Rattle.std.specs.Prelude.{◌≡◌, pos, length, replicate};

// One state's words to another.
pub fn copy(from: &[i32], to: &mut [i32])
    requires { length to.old ≡ length from.now }
    ensures { to.new ≡ from.now }
{
    to.copy_from_slice(from);
}

// All words 0.
pub fn zero(to: &mut [i32])
    ensures { to.new ≡ replicate (length to.old) (pos 0) }
{
    to.fill(0);
}
