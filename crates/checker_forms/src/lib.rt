// What a node of each form is, but for those that name a variable, sends and calls, by what its operands
// are: an expression of a type, a statement, or wrong.
#![tactic(auto)]

ghost use Rattle.std.specs.Prelude.{◌≡◌};
ghost use Rattle.sheet_rules.specs.Types.{not_type, binary_type, choice_type, loop_type, sequence_type};

use sheet_rules::Typed;

// Operators 9 to 16.
pub fn binary_type(op: u16, x: Typed, y: Typed) -> Typed
    ensures { result ≡ binary_type op x y }
{
    match op {
        9 => {
            if !sheet_types::is_of(x, 0) {
                return Typed::Wrong;
            }
            if !sheet_types::is_of(y, 0) {
                return Typed::Wrong;
            }
            Typed::Expression(0)
        }
        10 => {
            let Typed::Expression(t) = x else {
                return Typed::Wrong;
            };
            if !sheet_types::is_of(y, t) {
                return Typed::Wrong;
            }
            Typed::Expression(0)
        }
        _ => {
            if !sheet_types::is_of(x, 1) {
                return Typed::Wrong;
            }
            if !sheet_types::is_of(y, 1) {
                return Typed::Wrong;
            }
            if op == 11 {
                return Typed::Expression(0);
            }
            Typed::Expression(1)
        }
    }
}

pub fn choice_type(x: Typed, y: Typed, z: Typed) -> Typed
    ensures { result ≡ choice_type x y z }
{
    if !sheet_types::is_of(x, 0) {
        return Typed::Wrong;
    }
    sequence_type(y, z)
}

pub fn loop_type(x: Typed, y: Typed) -> Typed
    ensures { result ≡ loop_type x y }
{
    if !sheet_types::is_of(x, 0) {
        return Typed::Wrong;
    }
    if !sheet_types::is_statement(y) {
        return Typed::Wrong;
    }
    Typed::Statement
}

pub fn sequence_type(x: Typed, y: Typed) -> Typed
    ensures { result ≡ sequence_type x y }
{
    if !sheet_types::is_statement(x) {
        return Typed::Wrong;
    }
    if !sheet_types::is_statement(y) {
        return Typed::Wrong;
    }
    Typed::Statement
}

pub fn not_type(x: Typed) -> Typed
    ensures { result ≡ not_type x }
{
    if !sheet_types::is_of(x, 0) {
        return Typed::Wrong;
    }
    Typed::Expression(0)
}
