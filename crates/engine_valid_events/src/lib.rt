// An event's nine words, taken apart by its kind where they are well formed.
#![tactic(auto)]

ghost use Rattle.std.specs.Prelude.{◌≡◌, List, ℕ, length};
ghost use Rattle.machine.specs.Kinds as kind;
ghost use Rattle.machine.specs.Play.{words_of_event};
ghost use Rattle.machine_events.specs.Event.{event_of, is_malformed};
ghost use Rattle.engine_valid_events.specs.Read.{read_as};

use machine::EVENT_WORDS;
use machine_events::Event;
use sheet_opened::Reader;

// Each kind's words, or Malformed.
fn outside(sheet: &Reader, ev: &[i32]) -> Event
    requires { length ev.now ≡ words_of_event }
    ensures { result ≡ read_as sheet.now.sheet.now ev.now kind.outside }
{
    if engine_valid_kinds::outside_formed(sheet, ev) {
        return Event::Outside(engine_rows::telegram_in(ev, 1));
    }
    Event::Malformed
}

// Like Corrupt but for the case that it makes, which is what an event's word tells.
fn deliver(sheet: &Reader, ev: &[i32]) -> Event
    requires { length ev.now ≡ words_of_event }
    ensures { result ≡ read_as sheet.now.sheet.now ev.now kind.deliver }
{
    if engine_valid_kinds::deliver_formed(sheet, ev) {
        return Event::Deliver {
            sender: engine_valid_words::word(ev, 1),
            receiver: engine_valid_words::word(ev, 2),
        };
    }
    Event::Malformed
}

fn corrupt(sheet: &Reader, ev: &[i32]) -> Event
    requires { length ev.now ≡ words_of_event }
    ensures { result ≡ read_as sheet.now.sheet.now ev.now kind.corrupt }
{
    if engine_valid_kinds::corrupt_formed(sheet, ev) {
        return Event::Corrupt {
            sender: engine_valid_words::word(ev, 1),
            receiver: engine_valid_words::word(ev, 2),
        };
    }
    Event::Malformed
}

fn inner(sheet: &Reader, ev: &[i32]) -> Event
    requires { length ev.now ≡ words_of_event }
    ensures { result ≡ read_as sheet.now.sheet.now ev.now kind.inner }
{
    if engine_valid_kinds::inner_formed(sheet, ev) {
        return Event::Inner {
            receiver: engine_valid_words::word(ev, 2),
        };
    }
    Event::Malformed
}

fn slice(ev: &[i32]) -> Event
    requires { length ev.now ≡ words_of_event }
    ensures { (s : List ℕ) → result ≡ read_as s ev.now kind.slice }
{
    if engine_valid_kinds::rest_zero(ev, 1) {
        return Event::Slice;
    }
    Event::Malformed
}

// An event's words taken apart. A Slice, kind 5, uses no other word.
pub fn event_of(sheet: &Reader, ev: &[i32]) -> Event
    ensures { result ≡ event_of sheet.now.sheet.now ev.now }
{
    if ev.len() != EVENT_WORDS {
        return Event::Malformed;
    }
    let kind = engine_valid_words::word(ev, 0);
    match kind {
        1 => outside(sheet, ev),
        2 => deliver(sheet, ev),
        3 => corrupt(sheet, ev),
        4 => inner(sheet, ev),
        5 => slice(ev),
        _ => Event::Malformed,
    }
}

// Whether it is turned down with 4.
pub fn is_malformed(e: Event) -> bool
    ensures { result ≡ is_malformed e }
{
    match e {
        Event::Malformed => true,
        Event::Outside(_) => false,
        Event::Deliver { sender, receiver } => false,
        Event::Corrupt { sender, receiver } => false,
        Event::Inner { receiver } => false,
        Event::Slice => false,
    }
}
