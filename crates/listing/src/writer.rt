// A room that is written from its front, part by part.
ghost use Rattle.std.specs.Prelude.{◌≡◌, ◌<◌, true, [], ◌∷◌, map};
ghost use Rattle.definitions.specs.Sheet.{plus};
ghost use Rattle.definitions.specs.Listing.{decimals, field_bytes, wide};

// A room, and the place behind the bytes that are written.
#[derive(Drop)]
pub struct Writer<'a> {
    room: &'a mut [u8],
    at: usize,
}

impl<'a> Writer<'a> {
    ghost use Rattle.listing.specs.Lines.{column_bytes};
    ghost use Rattle.listing.specs.Writes.{HasRoom, Writes};

    // Nothing is written yet.
    pub fn new(room: &'a mut [u8]) -> Writer<'a>
        ensures same { result.room.ghost_name ≡ room.entry.ghost_name }
        ensures room { result.room.now ≡ room.old }
        ensures at { result.at ≡ 0 }
    {
        Writer { room, at: 0 }
    }

    // How many bytes are written.
    pub fn written(&self) -> usize
        ensures { result ≡ self.now.at }
    {
        self.at
    }

    pub fn byte(&mut self, b: u8)
        requires { HasRoom self.old (b ∷ []) }
        ensures { Writes self.old (b ∷ []) self.new }
    {
        self.room[self.at] = b;
        self.at += 1;
    }

    pub fn bytes(&mut self, bytes: &[u8])
        requires { HasRoom self.old bytes.now }
        ensures { Writes self.old bytes.now self.new }
    {
        let end = self.at + bytes.len();
        self.room[self.at..end].copy_from_slice(bytes);
        self.at = end;
    }

    // A number in a column of 4 bytes.
    pub fn number(&mut self, negative: bool, size: u16)
        requires room { HasRoom self.old (column_bytes (record { negative = negative; size = size } ∷ [])) }
        requires fits { negative ≡ true → size < 1000 }
        ensures { Writes self.old (column_bytes (record { negative = negative; size = size } ∷ [])) self.new }
    {
        column::put_narrow(self.room, self.at, negative, size);
        self.at += 4;
    }

    // Numbers without a sign, each in such a column.
    pub fn numbers(&mut self, sizes: &[u16])
        requires { HasRoom self.old (column_bytes (map plus sizes.now)) }
        ensures { Writes self.old (column_bytes (map plus sizes.now)) self.new }
    {
        for size in sizes {
            self.number(false, *size);
        }
    }

    // A number in a column of 12 bytes.
    pub fn count(&mut self, n: u64)
        requires { HasRoom self.old (field_bytes (wide n)) }
        ensures { Writes self.old (field_bytes (wide n)) self.new }
    {
        column::put_wide(self.room, self.at, n);
        self.at += 12;
    }

    // A number with no blanks before it, three digits at most.
    pub fn decimal(&mut self, n: u64)
        requires { HasRoom self.old (decimals 3 n) }
        ensures { Writes self.old (decimals 3 n) self.new }
    {
        let width = match n {
            0..=9 => 1,
            10..=99 => 2,
            _ => 3,
        };
        let end = self.at + width;
        column::put_digits(&mut self.room[self.at..end], n);
        self.at = end;
    }
}
