ghost use Rattle.std.specs.Prelude.{◌≡◌, IfOk, string_bytes};

use arrayvec::ArrayString;
use std::alloc::{AllocError, Global};
use std::marker::Model;

/// How many bytes a text holds in itself. A longer one has memory of its own.
const SHORT: usize = 16;

/// Where the bytes of a text lie.
#[derive(Debug, Drop)]
enum Held {
    Short(ArrayString<SHORT>),
    Long(String),
}

/// A text of UTF-8, which contracts see as the list of its bytes. A short one takes no memory
/// besides itself.
#[derive(Debug, Drop)]
pub struct Text {
    held: Held,
}

impl Model for Text {
    ghost use Rattle.std.specs.Prelude.{List, ℕ};
    ghost use Rattle.dv_value.specs.Text.{bytes_of};

    ghost Value = { List ℕ };

    ghost view = { λ t. bytes_of t.held };
}

impl Text {
    /// A copy of `text`.
    pub fn of(alloc: Global, text: &str) -> Result<Text, AllocError>
        ensures { IfOk result (λ t. t ≡ text.now) }
    {
        match ArrayString::from(text) {
            Ok(short) => Ok(Text {
                held: Held::Short(short),
            }),
            Err(_) => Ok(Text {
                held: Held::Long(String::from_str(alloc, text)?),
            }),
        }
    }

    /// The text of a string, whose memory it keeps.
    pub fn from_string(text: String) -> Text
        ensures { result ≡ string_bytes text }
    {
        Text {
            held: Held::Long(text),
        }
    }

    /// The text, with nothing escaped.
    pub fn as_str(&self) -> &str
        ensures { result.now ≡ self.now }
    {
        match &self.held {
            Held::Short(text) => text.as_str(),
            Held::Long(text) => text.as_str(),
        }
    }

    /// A text that equals this one.
    pub fn copy(&self, alloc: Global) -> Result<Text, AllocError>
        ensures { IfOk result (λ t. t ≡ self.now) }
    {
        match &self.held {
            Held::Short(text) => Ok(Text {
                held: Held::Short(*text),
            }),
            Held::Long(text) => Ok(Text {
                held: Held::Long(String::from_str(alloc, text.as_str())?),
            }),
        }
    }
}
