// Events as letters of a text: `0` to `3` is an instruction of that core, `a` to `d` an interrupt taken by core 0 to 3.
ghost use Rattle.std.specs.Prelude.{◌≡◌};
ghost use Rattle.reference.specs.Script.{event_letter, letter_event};

use cores::port::Event;

// The event that a letter stands for. No `TryFrom`, since both types are of other crates.
pub fn event_of(letter: u8) -> Option<Event>
    ensures { result ≡ letter_event letter }
{
    match letter {
        b'0'..=b'3' => Some(Event::Step((letter - b'0') as usize)),
        b'a'..=b'd' => Some(Event::Interrupt((letter - b'a') as usize)),
        _ => None,
    }
}

// The letter that stands for an event; none for a core past the fourth.
pub fn letter_of(event: Event) -> Option<u8>
    ensures { result ≡ event_letter event }
{
    match event {
        Event::Step(k) if k < 4 => Some(b'0' + k as u8),
        Event::Interrupt(k) if k < 4 => Some(b'a' + k as u8),
        _ => None,
    }
}
