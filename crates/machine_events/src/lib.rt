// What each kind of event comes to on a state of the sheet, step by step: a type and theorems. There is no code here.
#![tactic(auto)]

use machine::Telegram;

// An event's words, taken apart by its kind. Malformed is every one that is turned down with 4: a
// case of its own and no option, since the definitions say of it too what happens.
#[derive(Clone, Copy)]
pub enum Event {
    Malformed,
    Outside(Telegram),
    Deliver { sender: i32, receiver: i32 },
    Corrupt { sender: i32, receiver: i32 },
    Inner { receiver: i32 },
    Slice,
}
