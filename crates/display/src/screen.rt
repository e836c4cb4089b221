// The two lines while they are written.
ghost use Rattle.std.specs.Prelude.{◌≡◌};
ghost use Rattle.display.specs.Steps.{blank_screen, put_of, next_line};

// The place of the next character, the end of its line, and the characters, blanks at first.
#[derive(Clone, Copy)]
pub(crate) struct Screen {
    pub at: usize,
    pub end: usize,
    pub cells: [u8; 32],
}

impl Screen {
    pub(crate) fn blank() -> Screen
        ensures { result ≡ blank_screen }
    {
        Screen {
            at: 0,
            end: 16,
            cells: [b' '; 32],
        }
    }

    // One character more. Past the sixteenth of its line, and past the second line, it is dropped.
    #[tactic(auto, unfolding(crate::specs::Steps::put_of))]
    pub(crate) fn put(self, byte: u8) -> Screen
        ensures { result ≡ put_of self byte }
    {
        let at = self.at;
        if self.end <= at || 32 <= at {
            return self;
        }
        let mut cells = self.cells;
        cells[at] = byte;
        Screen {
            at: at + 1,
            cells,
            ..self
        }
    }

    // The second line begins where the first ends; behind the second there is no room.
    pub(crate) fn next_line(self) -> Screen
        ensures { result ≡ next_line self }
    {
        Screen {
            at: self.end,
            end: 32,
            ..self
        }
    }
}
