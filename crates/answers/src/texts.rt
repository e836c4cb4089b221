// Texts by value: letters are put behind those that are there. Within a step the text is lent, since by value it is copied for each letter.
ghost use Rattle.std.specs.Prelude.{◌≡◌};
ghost use Rattle.answers.specs.Texts.{blank_text, with_byte, with_bytes};

use crate::Text;

impl Text {
    pub(crate) fn blank() -> Text
        ensures { result ≡ blank_text }
    {
        Text {
            bytes: [0; 256],
            length: 0,
        }
    }

    // One letter more; a full text is left as it is.
    #[tactic(auto, unfolding(crate::specs::Texts::with_byte))]
    pub(crate) fn put(&mut self, letter: u8)
        ensures { self.new ≡ with_byte self.old letter }
    {
        if self.length < 256 {
            self.bytes[self.length] = letter;
            self.length += 1;
        }
    }

    // As many letters more as there is room for, in one copy.
    pub(crate) fn letters(mut self, letters: &[u8]) -> Text
        ensures { result ≡ with_bytes self letters.now }
    {
        let at = self.length.min(256);
        let fitting = letters.len().min(256 - at);
        self.bytes[at..at + fitting].copy_from_slice(&letters[..fitting]);
        self.length += fitting;
        self
    }
}
