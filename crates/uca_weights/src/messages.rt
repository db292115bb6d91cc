//! The texts of errors. They take no memory.

ghost use Rattle.std.specs.Prelude.{◌≡◌, ◌+◌, ◌≤◌, ◌++◌, length, decimal};

use arrayvec::ArrayString;
use std::marker::Model;

/// The text of an error, of at most 160 bytes. It takes no memory.
#[derive(Drop)]
pub struct Message {
    text: ArrayString<160>,
}

impl Model for Message {
    ghost use Rattle.std.specs.Prelude.{ℕ, List};

    ghost Value = { List ℕ };

    ghost view = { λ message. message.text.bytes };
}

impl Message {
    /// A message that begins with this text.
    pub fn of(text: &str) -> Message
        requires { length text.now ≤ 160 }
        ensures { result ≡ text.now }
    {
        let mut message = ArrayString::new();
        message.push_str(text);
        Message { text: message }
    }

    /// The message, and a text after it.
    pub fn text(self, text: &str) -> Message
        requires { length self + length text.now ≤ 160 }
        ensures { result ≡ self ++ text.now }
    {
        let mut message = self;
        message.text.push_str(text);
        message
    }

    /// The message, and a number in decimal after it.
    pub fn number(self, number: u64) -> Message
        requires { length self ≤ 140 }
        ensures text { result ≡ self ++ decimal number }
        ensures short { length result ≤ length self + 20 }
    {
        let mut digits = itoa::Buffer::new();
        self.text(digits.format(number))
    }

    /// The text.
    pub fn as_str(&self) -> &str
        ensures { result.now ≡ self.now }
    {
        self.text.as_str()
    }
}
