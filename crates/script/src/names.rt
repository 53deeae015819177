// The bytes of a short word. No name has more than eight, so the first nine tell a longer word from each.
const MOST: usize = 9;

#[derive(Clone, Copy)]
pub struct Name {
    bytes: [u8; MOST],
    len: usize,
}

impl Name {
    pub fn empty() -> Name {
        Name {
            bytes: [0; MOST],
            len: 0,
        }
    }

    // With a byte more of the word.
    pub fn with(self, byte: u8) -> Name {
        let mut longer = self;
        if self.len < MOST {
            longer.bytes[self.len] = byte;
            longer.len = self.len + 1;
        }
        longer
    }

    pub fn text(&self) -> &[u8] {
        &self.bytes[..self.len.min(MOST)]
    }
}
