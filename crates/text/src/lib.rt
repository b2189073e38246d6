//! Texts that grow: the words and digits of refusals and of report lines.
#![tactic(auto)]

ghost use Rattle.std.specs.Prelude.{◌≡◌, [], ◌∷◌, ◌++◌, flat_map, OnOk};
ghost use Rattle.text.specs.Texts.{Adds, side_word, list_text, line_text};

use itoa::{Buffer, Integer};
use sim_game::{NoMemory, Side};
use std::alloc::Global;
use std::marker::Model;

/// A text that grows. Each call adds to its end, or answers that there was no memory.
#[derive(Drop)]
pub struct Text {
    bytes: Vec<u8>,
}

impl Model for Text {
    ghost use Rattle.std.specs.Prelude.{List, ℕ};

    ghost Value = { List ℕ };

    ghost view = { λ t. t.bytes.items };
}

impl Text {
    /// An empty text, which takes no memory.
    pub fn new(alloc: Global) -> Text
        ensures { result ≡ [] }
    {
        Text {
            bytes: Vec::new(alloc),
        }
    }

    pub fn into_bytes(self) -> Vec<u8>
        ensures { result.items ≡ self }
    {
        self.bytes
    }

    pub fn word(&mut self, word: &[u8]) -> Result<(), NoMemory>
        ensures { OnOk result (Adds self.old self.new word.now) }
    {
        self.bytes.extend_from_slice(word)?;
        Ok(())
    }

    pub fn number<I: Integer>(&mut self, n: &I) -> Result<(), NoMemory>
        ensures { OnOk result (Adds self.old self.new (I.text n.now)) }
    {
        let mut buffer = Buffer::new();
        self.word(buffer.format(*n).as_bytes())
    }

    /// A word and a number behind it.
    pub fn word_number<I: Integer>(&mut self, word: &[u8], n: &I) -> Result<(), NoMemory>
        ensures { OnOk result (Adds self.old self.new (word.now ++ I.text n.now)) }
    {
        self.word(word)?;
        self.number(n)
    }

    /// A word and a side behind it.
    pub fn word_side(&mut self, word: &[u8], side: Side) -> Result<(), NoMemory>
        ensures { OnOk result (Adds self.old self.new (word.now ++ side_word side)) }
    {
        self.word(word)?;
        match side {
            Side::One => self.word(b"one"),
            Side::Two => self.word(b"two"),
        }
    }

    /// Each number with a word before it.
    pub fn each<I: Integer>(&mut self, before: &[u8], ns: &[I]) -> Result<(), NoMemory>
        ensures { OnOk result (Adds self.old self.new (flat_map (λ n. before.now ++ I.text n) ns.now)) }
    {
        for n in ns {
            self.word(before)?;
            self.number(n)?;
        }
        Ok(())
    }

    /// A space and a number.
    pub fn next<I: Integer>(&mut self, n: &I) -> Result<(), NoMemory>
        ensures { OnOk result (Adds self.old self.new (32 ∷ I.text n.now)) }
    {
        self.word(b" ")?;
        self.number(n)
    }

    /// A space and a list: numbers with a comma between each two, or a dash for none.
    pub fn next_list(&mut self, ns: &[u8]) -> Result<(), NoMemory>
        ensures { OnOk result (Adds self.old self.new (32 ∷ list_text ns.now)) }
    {
        match ns {
            [] => self.word(b" -"),
            [first, rest @ ..] => {
                self.next(first)?;
                self.each(b",", rest)
            }
        }
    }

    /// A line of a word and a number.
    pub fn named<I: Integer>(&mut self, word: &[u8], n: &I) -> Result<(), NoMemory>
        ensures { OnOk result (Adds self.old self.new (line_text (word.now ∷ I.text n.now ∷ []))) }
    {
        self.word(word)?;
        self.next(n)?;
        self.word(b"\n")
    }
}
