//! Values of bits in hexadecimal digits.
ghost use Rattle.std.specs.Prelude.{◌≡◌, ◌+◌, ◌-◌, ◌*◌, ◌/◌, ◌%◌, ◌^◌, ◌<◌, ◌++◌, Some, IsSome, OnOk, OnErr, length, min, nat_lt, is_some, unwrap_or};
ghost use Rattle.std.specs.Char.{digit_value};
ghost use Rattle.sim_base.specs.Digits.{lowest_digits};
ghost use Rattle.sim_base.specs.BitValue.{hexadecimal_length, hexadecimal_value};

use crate::bits::Bits;
use crate::digits::digit_character;
use crate::memory::NoMemory;

impl Bits {
    /// Fills the slice with the lowest hexadecimal digits of the number, the most significant first
    /// and in lower case.
    pub fn write_hexadecimal(&self, into: &mut [u8])
        ensures { into.new ≡ lowest_digits 16 (length into.old) self.now.number }
    {
        let len = into.len();
        for at in (0..len).rev() {
            into[at] = digit_character(self.hexadecimal_digit(len - 1 - at));
        }
    }

    /// Appends the number in hexadecimal digits of lower case: as many as the width takes, at least one.
    pub fn push_hexadecimal(&self, into: &mut Vec<u8>) -> Result<(), NoMemory>
        ensures ok { OnOk result (into.new.items ≡ into.old.items ++ lowest_digits 16 (hexadecimal_length self.now.width) self.now.number) }
        ensures err { OnErr result (into.new.items ≡ into.old.items) }
    {
        let start = into.len();
        let digits = (self.width() as usize + 3) / 4;
        into.resize(start + digits.max(1), b'0')?;
        self.write_hexadecimal(&mut into[start..]);
        Ok(())
    }

    /// Takes the number that a text of one or more hexadecimal digits of either case stands for. Where
    /// the text is none, or the width does not hold its number, the answer is false and the value stays.
    pub fn put_hexadecimal(&mut self, text: &[u8]) -> bool
        ensures answer { result ≡ is_some (hexadecimal_value self.old.width text.now) }
        ensures value { self.new ≡ unwrap_or (hexadecimal_value self.old.width text.now) self.old }
    {
        let held = is_held(self.width(), text);
        if held {
            self.put_held(text);
        }
        held
    }

    /// The hexadecimal digit at this place; the least digit has the place 0.
    fn hexadecimal_digit(&self, place: usize) -> u64
        ensures { result ≡ self.now.number / 16 ^ place % 16 }
    {
        let room = room_at(self.width(), place);
        if room == 0 {
            0
        } else {
            self.field(4 * place as u32, room)
        }
    }

    /// Takes the number of a text that stands for a value of this width.
    fn put_held(&mut self, text: &[u8])
        requires { IsSome (hexadecimal_value self.old.width text.now) }
        ensures { Some self.new ≡ hexadecimal_value self.old.width text.now }
    {
        let width = self.width();
        self.clear();
        for at in (0..text.len()).rev() {
            let place = text.len() - 1 - at;
            let room = room_at(width, place);
            if room > 0 {
                self.put_field(4 * place as u32, room, digit_of(text[at]));
            }
        }
    }
}

/// Whether a text stands for a value of this width: each digit is within the bits of its place.
fn is_held(width: u32, text: &[u8]) -> bool
    ensures { result ≡ is_some (hexadecimal_value width text.now) }
{
    for at in (0..text.len()).rev() {
        let room = room_at(width, text.len() - 1 - at);
        if digit_of(text[at]) >= 1 << room {
            return false;
        }
    }
    !text.is_empty()
}

/// The digit that a character stands for in bases up to 36, and 36 where it stands for none.
fn digit_of(byte: u8) -> u64
    ensures { result ≡ digit_value byte }
{
    u64::from(char::from(byte).to_digit(36).unwrap_or(36))
}

/// How many bits of the hexadecimal digit at this place are within the width.
fn room_at(width: u32, place: usize) -> u32
    ensures { result ≡ min 4 (width - 4 * place) }
{
    if place > (width / 4) as usize {
        0
    } else {
        (width - 4 * place as u32).min(4)
    }
}
